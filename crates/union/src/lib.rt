// The step UNION over work memory.
#![tactic(auto)]

mod uniting;

pub use uniting::union;
