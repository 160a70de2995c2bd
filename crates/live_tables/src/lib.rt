// The live tables of work memory: two lent slices, values and labels, of which the first 8,192 elements are used as four slots of 2,048 cells. The
// table at place i of the stack stands in slot i, row by row; the last slot is for a table that is being made. A third slice has the marks
// of the rows, four slots of 256.
#![tactic(auto)]

ghost use Rattle.std.specs.Prelude.{◌≡◌};

mod live;

use cells::Area;
pub use live::{live_table, no_tables, ready, with_table};

// The elements that a slot has, where the last slot begins, and the elements of all four.
pub const SLOT: usize = 2048;

pub const LAST_SLOT: usize = 6144;

pub const ROOM: usize = 8192;

// The same of the marks.
pub const MARK_SLOT: usize = 256;

pub const LAST_MARKS: usize = 768;

pub const MARK_ROOM: usize = 1024;

// The live tables: how many there are, and the rows and columns of each, the first pushed first. The struct is plain, with no
// invariant: `ready` and each step answer for any stack that they are handed, one of four tables too (must-fail/four_tables.edit).
#[derive(Clone, Copy, PartialEq, Eq, Debug)]
pub struct Stack {
    pub depth: usize,
    pub rows: [usize; 3],
    pub columns: [usize; 3],
}

// A live table: its slot, the places at which that and its marks begin, and its rows and columns.
#[derive(Clone, Copy, PartialEq, Eq, Debug)]
pub struct LiveTable {
    pub slot: usize,
    pub at: usize,
    pub marks: usize,
    pub rows: usize,
    pub columns: usize,
}

impl LiveTable {
    ghost use Rattle.live_tables.specs.promises.Live.{area_of};

    // Where its cells stand in each slice of cells.
    pub fn area(self) -> Area
        ensures { result ≡ area_of self }
    {
        Area {
            at: self.at,
            rows: self.rows,
            columns: self.columns,
        }
    }
}
