// SCAN: a table of the container, read into the next slot of work memory.
#![tactic(auto)]

mod scanning;

pub use scanning::scan;
