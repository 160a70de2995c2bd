// The monitor for callers in C, C++ and Rust: numbers and slices only. Each slice is lent as a pointer and a length.
#![tactic(auto)]

mod check;
mod converting;
mod run;

pub use check::cilunovay_check;
pub use converting::cilunovay_convert;
pub use run::cilunovay_run;
