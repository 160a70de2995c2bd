// The step: its arguments, the keys' labels, and then the rows.
ghost use Rattle.std.specs.Prelude.{◌+◌, ◌≤◌, ◌≡◌, length};
ghost use Rattle.cells.specs.promises.Lent.{memory_held, SameCells};
ghost use Rattle.memory.specs.promises.Stack.{last_marks};
ghost use Rattle.memory.specs.promises.Steps.{Done};
ghost use Rattle.plan.specs.Supply.{Supply};
ghost use Rattle.plan.specs.declared.Step.TheVariants.{Join};
ghost use Rattle.join.specs.promises.Ends as ends;
ghost use Rattle.pairs.specs.promises.Pairs as spec;

use crate::keys::unclear_key;
use cells::LentCells;
use memory::{
    LAST_MARKS, LAST_SLOT, MARK_ROOM, Refusal, Stack, StepError, fit, live_table, with_table,
};
use pairs::{Side, Sides, join_rows};
use plan::Step;

// Joins the two top tables: each left row with each right row whose key it matches.
pub fn join(
    cells: &mut LentCells,
    marks: &mut [u64],
    stack: Stack,
    left: usize,
    right: usize,
) -> Result<Stack, StepError>
    ensures done { (supply : Supply) → Done (Join left right) supply (memory_held cells.old marks.old) stack result (memory_held cells.new marks.new) }
    ensures same { SameCells cells.old cells.new }
{
    if marks.len() < MARK_ROOM {
        return Err(StepError::DoesNotFit);
    }
    let step = Step::Join { left, right };
    let columns = fit(cells.values.len(), cells.labels.len(), stack, step)?;
    let lower = live_table(stack, 1);
    let upper = live_table(stack, 0);
    let sides = Sides {
        left: Side {
            table: lower,
            key: left,
        },
        right: Side {
            table: upper,
            key: right,
        },
    };
    if let Some(at) = unclear_key(cells, sides)? {
        return Err(StepError::Refused(Refusal::NotClear(at)));
    }
    let made = make_table(cells, marks, columns, sides)?;
    Ok(with_table(stack, lower.slot, columns, made))
}

// Makes the rows, of so many columns, and copies them down to the left table's slot; answers how many there are.
fn make_table(
    cells: &mut LentCells,
    marks: &mut [u64],
    columns: usize,
    sides: Sides,
) -> Result<usize, Refusal>
    requires fit { spec.SidesFit (length cells.old.values.now) (length cells.old.labels.now) sides.left sides.right
        × (columns ≡ spec.width sides.left sides.right) }
    requires marks { spec.MarksBelow sides.left (length marks.old) × (sides.left.table.marks + 256 ≤ last_marks) }
    ensures finished { ends.Finished sides.left sides.right (memory_held cells.old marks.old) result (memory_held cells.new marks.new) }
    ensures same { SameCells cells.old cells.new }
{
    let made = join_rows(cells, marks, sides)?;
    let lower = sides.left.table;
    moves::move_cells(cells, LAST_SLOT, lower.at, made * columns);
    moves::move_marks(marks, LAST_MARKS, lower.marks, made);
    Ok(made)
}
