//! The scan of a hosted tablet: the newest pairs of its files and of its memory, within a range of rows; and all its cells.
//!
//! That a scan merges the files and the memory of a tablet, and that the cell of greatest time counts, is Apache Accumulo
//! 2.1's; that each file is read whole is this project's own.
#![tactic(auto)]

mod cells;
mod files;
mod laws;
mod loading;
mod range;
mod scanning;
mod times;

pub use cells::tablet_cells;
pub use files::file_cells;
pub use laws::{a_memory_follows_its_logs, the_order_in_memory_counts_for_nothing};
pub use loading::load_memory;
pub use scanning::scan_tablet;
pub use times::greatest_time;
