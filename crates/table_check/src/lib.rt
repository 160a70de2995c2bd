// The checks of a table part: its header and length, its values and labels, and its sheet numbers.
#![tactic(auto)]

mod checking;

pub use checking::check_table;
