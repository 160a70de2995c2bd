// The monitor: evaluates a container's plan, and releases a table with a trace, or refuses and says where.
#![tactic(auto)]

mod monitor;

pub use monitor::run;
