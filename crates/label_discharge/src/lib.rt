// Discharge of a label.
#![tactic(auto)]

mod discharge;
mod level;
mod level_n;

pub use discharge::{discharge_aggregate, discharge_transform};
pub use level_n::discharge_noise;
