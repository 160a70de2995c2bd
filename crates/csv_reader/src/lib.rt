// A table's comma-separated text, read into a slice that the caller lends.
#![tactic(auto)]

mod read;
mod spot;

pub use read::{ReadingError, TextTable, read_text};
