// Events of a cluster over hosts in memory.
mod acts;
mod costs;
mod crashes;
mod events;
mod servers;
