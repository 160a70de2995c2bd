// A table's comma-separated text, written: its length, and the text itself into a slice that the caller lends.
#![tactic(auto)]

mod length;
mod write;

pub use length::text_length;
pub use write::{WritingError, write_text};
