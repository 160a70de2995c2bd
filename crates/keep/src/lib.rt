// The step KEEP over work memory.
#![tactic(auto)]

mod keeping;

pub use keeping::keep;
