// What goes by the operation of an APPLY or a GROUP: its number, the digits that it takes off, and whether it exists.
#![tactic(auto)]

mod numbers;

pub use numbers::{aggregate_code, digits_of, operation_fits, transform_code};
