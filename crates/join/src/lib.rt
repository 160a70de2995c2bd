// JOIN over work memory. The rows are made in the last slot, above the two tables, and then copied down to the left table's slot.
#![tactic(auto)]

mod joining;
mod keys;

pub use joining::join;
