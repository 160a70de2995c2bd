// What goes by a step's kind: its number, the tables that it takes off the stack, and the draws that it uses. A further kind adds a line to each list here.
#![tactic(auto)]

mod draws;
mod numbers;
mod tables;

pub use draws::draws_used;
pub use numbers::kind_of;
pub use tables::{enough_tables, takes};
