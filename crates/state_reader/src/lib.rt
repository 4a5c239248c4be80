//! What a still ground means, computed: the cells of a tablet, the level of which cells tell, and all levels of a ground.
//!
//! Each function's contract is the definition of `store_meaning` that it computes, so that tests can see these definitions at
//! work. All of it is this project's own.
#![tactic(auto)]

mod chains;
mod columns;
mod flag_text;
mod level;
mod lists;
mod marks;
mod name_map;
mod paths;
mod reading;
mod reading_level;
#[cfg(test)]
mod reading_tests;
mod records;
mod root;
mod still;
mod store_reading;
mod tablet_cells;
#[cfg(test)]
mod tests;

pub use chains::{chain_cells, told_cells, untold, untold_log};
pub use columns::row_columns;
pub use level::{BadRow, LevelFault, LevelKind, LevelRows, LoadFlag};
pub use marks::{read_candidate, read_flag};
pub use name_map::NameMap;
pub use reading::read;
pub use reading_level::read_level;
pub use records::{is_of_kind, read_record, tablet_at};
pub use root::root_record;
pub use still::{Mutations, StillGround};
pub use store_reading::{ChainFault, ReadFault, StoreReading, Untold};
pub use tablet_cells::{content, logs_of};
