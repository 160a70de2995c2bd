// The step NOISE (#102) over work memory. It tests every row first, makes its table in the last slot and moves it to the top table's place.
#![tactic(auto)]

mod noising;
mod noisy;

pub use noising::noise;
