// The step APPLY over work memory. It tests every row first, makes its table in the last slot and moves it to the top table's place.
#![tactic(auto)]

mod applied;
mod applying;

pub use applying::apply;
