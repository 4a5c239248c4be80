//! A trial of the runner of transactions: stacks over nodes, steps of two levels over nodes, and a disk that may be honest.
//!
//! It shows that the laws of steps and stacks can be met, and what a turn that stops anywhere leaves. No program runs it.
#![tactic(auto)]

mod changes;
mod laws;
mod layout;
mod levels;
mod site;
mod stack_ops;
mod stacks;
#[cfg(test)]
mod tests;
mod turns;
mod words;
mod works;

pub use laws::nodes_are_those_of_the_image;
pub use layout::Slot;
pub use levels::Level;
pub use site::{Halt, Site};
pub use stacks::NodeStacks;
pub use turns::go;
pub use works::put;
