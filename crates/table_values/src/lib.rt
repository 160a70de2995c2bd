// The values of a table in work memory: the first that is OVER, and their copy to the output. Each function takes every argument and tests
// it itself.
#![tactic(auto)]

mod output;
mod over;

pub use output::copy_out;
pub use over::first_over;
