// The checks of a plan: its length, and each step by its record, the tables on the stack, and their columns.
#![tactic(auto)]

mod stack;
mod steps;

pub use steps::check_plan;
