// The container: the input checks over all its parts.
#![tactic(auto)]

mod checks;

pub use checks::{check_input, check_input_from};
