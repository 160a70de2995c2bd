// KEEP: the columns of a mask, in order.
ghost use Rattle.std.specs.Prelude.{◌+◌, ◌≤◌, length};
ghost use Rattle.plan.specs.declared.Step.TheVariants.{Keep};
ghost use Rattle.plan.specs.Supply.{Supply};
ghost use Rattle.cells.specs.promises.Lent.{SameCells, work_held};
ghost use Rattle.memory.specs.promises.Stack.{Inside};
ghost use Rattle.memory.specs.promises.Steps.{Done, Unmoved};
ghost use Rattle.keep.specs.promises.Keeping as here;

use cells::LentCells;
use memory::{LiveTable, Stack, StepError};
use plan::Step;

// Keeps the columns of the top table that are in the mask.
pub fn keep(cells: &mut LentCells, stack: Stack, mask: u32) -> Result<Stack, StepError>
    ensures done { (supply : Supply) → Unmoved (λ before after. Done (Keep mask) supply before stack result after)
        (work_held cells.old) (work_held cells.new) }
    ensures same { SameCells cells.old cells.new }
{
    let step = Step::Keep { mask };
    let columns = memory::fit(cells.values.len(), cells.labels.len(), stack, step)?;
    let top = memory::live_table(stack, 0);
    keep_rows(cells, top, mask);
    Ok(memory::with_table(stack, top.slot, columns, top.rows))
}

// Moves the kept cells of each row to the front.
fn keep_rows(cells: &mut LentCells, top: LiveTable, mask: u32)
    requires { Inside top (length cells.old.values.now) (length cells.old.labels.now) }
    ensures done { here.RowsKept mask top (work_held cells.old) (work_held cells.new) }
    ensures same { SameCells cells.old cells.new }
{
    let mut to = top.at;
    for row in 0..top.rows {
        let from = top.at + row * top.columns;
        to = keep_row(cells, from, to, top.columns, mask);
    }
}

// Moves the kept cells of the row at `from` to `to`, and answers the place behind them. group's write_row copies the cells of a mask with
// the same loop: an open function for both would have to test its ranges at each row, since none has a `requires`.
fn keep_row(cells: &mut LentCells, from: usize, to: usize, columns: usize, mask: u32) -> usize
    requires { (to ≤ from) × (columns ≤ 8) × (from + columns ≤ 8192) ×
        (from + columns ≤ length cells.old.values.now) × (from + columns ≤ length cells.old.labels.now) }
    ensures done { here.RowKept mask from to columns (work_held cells.old) result (work_held cells.new) }
    ensures same { SameCells cells.old cells.new }
{
    let values = &mut *cells.values;
    let labels = &mut *cells.labels;
    let mut next = to;
    for column in 0..columns {
        if (mask >> column) % 2 == 1 {
            values[next] = values[from + column];
            labels[next] = labels[from + column];
            next += 1;
        }
    }
    next
}
