// One step of a plan over work memory.
#![tactic(auto)]

mod taking;

pub use taking::take_step;
