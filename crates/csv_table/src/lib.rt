// Tables as comma-separated text: a header `c0,c1` and so on, then a line for each row, each line ended by CR LF.
#![tactic(auto)]

pub use csv_reader::{ReadingError, TextTable, read_text};
pub use csv_writer::{WritingError, text_length, write_text};
