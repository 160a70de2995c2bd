// The trace: the stages left on a table in work memory, and a finished step's line. Each function takes every argument and tests it itself.
#![tactic(auto)]

mod lines;
mod stages;

pub use lines::write_line;
pub use stages::stages_left;
