// UNION: the rows of the table below the top, and then those of the top table.
ghost use Rattle.plan.specs.declared.Step.TheVariants.{Union};
ghost use Rattle.plan.specs.Supply.{Supply};
ghost use Rattle.cells.specs.promises.Lent.{SameCells, memory_held};
ghost use Rattle.memory.specs.promises.Steps.{Done};

use cells::LentCells;
use memory::{MARK_ROOM, Refusal, Stack, StepError};
use plan::Step;

// Puts the rows of the top table behind those of the table below it.
pub fn union(cells: &mut LentCells, marks: &mut [u64], stack: Stack) -> Result<Stack, StepError>
    ensures done { (supply : Supply) → Done Union supply (memory_held cells.old marks.old) stack result (memory_held cells.new marks.new) }
    ensures same { SameCells cells.old cells.new }
{
    if marks.len() < MARK_ROOM {
        return Err(StepError::DoesNotFit);
    }
    let columns = memory::fit(cells.values.len(), cells.labels.len(), stack, Step::Union)?;
    let left = memory::live_table(stack, 1);
    let right = memory::live_table(stack, 0);
    if 256 < left.rows + right.rows {
        return Err(StepError::Refused(Refusal::TooMany));
    }
    let behind = left.at + left.rows * columns;
    moves::move_cells(cells, right.at, behind, right.rows * columns);
    let behind_marks = left.marks + left.rows;
    moves::move_marks(marks, right.marks, behind_marks, right.rows);
    Ok(memory::with_table(stack, left.slot, columns, left.rows + right.rows))
}
