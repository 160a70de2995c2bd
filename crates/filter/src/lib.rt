// The step FILTER over work memory.
#![tactic(auto)]

mod filtering;

pub use filtering::filter;
