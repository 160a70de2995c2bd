// The reader of a table part's cells.
#![tactic(auto)]

mod reader;

pub use reader::read_cells;
