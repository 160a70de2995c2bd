// GROUP over work memory. The rows of the groups are made in the last slot, above the table that is grouped, and then copied down over it.
#![tactic(auto)]

mod labelling;
mod made;
mod member;
mod partition;

use memory::LiveTable;
pub use partition::group;
use plan::Aggregate;

// A GROUP of a live table, and the width of the rows made. Nothing compares two of them.
#[derive(Clone, Copy)]
struct Grouping {
    table: LiveTable,
    keys: u32,
    aggregate: Aggregate,
    column: usize,
    width: usize,
}

// A group: the row that leads it, and for each row of the table the next one of its group, or how many rows there are. The number of rows
// stands for none, so that a walk along the group makes one comparison for each row.
#[derive(Clone, Copy)]
struct Led<'a> {
    next: &'a [usize; 256],
    row: usize,
}
