// Composition of two labels.
#![tactic(auto)]

mod composition;
mod packing;

pub use composition::{compose, compose_words};
