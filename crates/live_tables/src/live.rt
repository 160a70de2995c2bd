// The live tables.
ghost use Rattle.std.specs.Prelude.{◌≡◌};
ghost use Rattle.live_tables.specs.promises.Live as spec;

use super::{LiveTable, MARK_SLOT, ROOM, SLOT, Stack};

// Whether slices of these lengths are long enough, and the stack has at most three tables of at most 256 rows and 8 columns.
#[tactic(auto, unfolding(crate::specs::promises::Live::ready))]
pub fn ready(values: usize, labels: usize, stack: Stack) -> bool
    ensures { result ≡ spec.ready values labels stack }
{
    ROOM <= values
        && ROOM <= labels
        && stack.depth <= 3
        && stack.rows.iter().all(|rows| *rows <= 256)
        && stack.columns.iter().all(|columns| *columns <= 8)
}

// No table.
#[tactic(auto, unfolding(crate::specs::promises::Live::no_tables))]
pub fn no_tables() -> Stack
    ensures { result ≡ spec.no_tables }
{
    Stack {
        depth: 0,
        rows: [0; 3],
        columns: [0; 3],
    }
}

// The live table so many below the top one; where there is none, one without rows and columns in the first slot.
#[tactic(auto, unfolding(crate::specs::promises::Live::live_table))]
pub fn live_table(stack: Stack, below: usize) -> LiveTable
    ensures { result ≡ spec.live_table stack below }
{
    let depth = stack.depth;
    if 3 < depth || depth <= below {
        return no_table();
    }
    let slot = depth - 1 - below;
    LiveTable {
        slot,
        at: SLOT * slot,
        marks: MARK_SLOT * slot,
        rows: stack.rows[slot],
        columns: stack.columns[slot],
    }
}

fn no_table() -> LiveTable
    ensures { result ≡ spec.no_table }
{
    LiveTable {
        slot: 0,
        at: 0,
        marks: 0,
        rows: 0,
        columns: 0,
    }
}

// The stack with a table in slot `index`, and none above it; the stack itself where there is no such slot.
#[tactic(auto, unfolding(crate::specs::promises::Live::with_table))]
pub fn with_table(stack: Stack, index: usize, columns: usize, rows: usize) -> Stack
    ensures { result ≡ spec.with_table stack index columns rows }
{
    let mut made = stack;
    if index < 3 {
        made.depth = index + 1;
        made.rows[index] = rows;
        made.columns[index] = columns;
    }
    made
}
