// A step of any kind.
ghost use Rattle.cells.specs.promises.Lent.{memory_held, SameCells};
ghost use Rattle.step.specs.promises.Taking.{Taken};

use cells::LentCells;
use memory::{MARK_ROOM, Stack, StepError};
use plan::Step;

// Takes a step on the stack in work memory, with the draws that are left. The steps that move no row are not lent the marks, and so do not test them; the
// others, which any caller may call, test them again.
pub fn take_step(
    container: &[u8],
    draws: &[i64],
    cells: &mut LentCells,
    marks: &mut [u64],
    stack: Stack,
    step: Step,
) -> Result<Stack, StepError>
    ensures done { Taken container.now draws.now step (memory_held cells.old marks.old) stack result (memory_held cells.new marks.new) }
    ensures same { SameCells cells.old cells.new }
{
    if marks.len() < MARK_ROOM {
        return Err(StepError::DoesNotFit);
    }
    match step {
        Step::Scan { table } => scan::scan(container, cells, marks, stack, table),
        Step::Union => union::union(cells, marks, stack),
        Step::Join { left, right } => join::join(cells, marks, stack, left, right),
        Step::Filter {
            column,
            comparison,
            operand,
        } => filter::filter(cells, marks, stack, column, comparison, operand),
        Step::Keep { mask } => keep::keep(cells, stack, mask),
        Step::Apply { column, transform } => apply::apply(cells, stack, column, transform),
        Step::Group {
            keys,
            aggregate,
            column,
        } => group::group(cells, marks, stack, keys, aggregate, column),
        Step::Noise { column } => noise::noise(draws, cells, stack, column),
    }
}
