// The columns that a step of each kind needs and makes. A further kind adds a line to each list here.
#![tactic(auto)]

mod columns;

pub use columns::made_width;
