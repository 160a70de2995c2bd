// Values: whole numbers in a range, with OVER for a result outside it. No function asks anything of its arguments: a number out of range
// counts as OVER.
#![tactic(auto)]

pub mod choice;
pub mod pattern;
pub mod range;
