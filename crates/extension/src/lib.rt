// What APPLY and NOISE share: a table whose rows each have one cell more is made in the last slot of work memory and moved to the place of the table
// that it is made of. They differ in the new cell.
#![tactic(auto)]

mod extending;
mod new_cell;

pub use extending::extend;
pub use new_cell::NewCell;
