// "Groups in order of first appearance: keys, then the aggregate".
ghost use Rattle.cells.specs.promises.Lent.{SameCells, memory_held};
ghost use Rattle.memory.specs.promises.Steps.{DoneWhere};
ghost use Rattle.plan.specs.Supply.{Supply};
ghost use Rattle.plan.specs.declared.Step.TheVariants.{Group};
ghost use Rattle.group.specs.promises.Fits.{group_fits};

use crate::Grouping;
use crate::made::replace;
use cells::LentCells;
use memory::{MARK_ROOM, Stack, StepError};
use plan::{Aggregate, Step};

// Groups the rows of the last table pushed by the columns of a mask, and puts the groups, each its keys and the aggregate of a column, in
// its place. Labels of the column that are not well-formed do not fit. The last three are the fields of the step: a step holds them, and a
// `Grouping` the table that they are for, so that a third struct of the three would be read at this call alone.
pub fn group(
    cells: &mut LentCells,
    marks: &mut [u64],
    stack: Stack,
    keys: u32,
    aggregate: Aggregate,
    column: usize,
) -> Result<Stack, StepError>
    ensures done { (supply : Supply) → DoneWhere
        (group_fits keys aggregate column supply (memory_held cells.old marks.old) stack)
        (Group keys aggregate column) supply (memory_held cells.old marks.old) stack result (memory_held cells.new marks.new) }
    ensures same { SameCells cells.old cells.new }
{
    if marks.len() < MARK_ROOM {
        return Err(StepError::DoesNotFit);
    }
    let step = Step::Group {
        keys,
        aggregate,
        column,
    };
    let width = memory::fit(cells.values.len(), cells.labels.len(), stack, step)?;
    let table = memory::live_table(stack, 0);
    // Lent as a `&mut`: of a field lent as a `&` the proof would know the length alone afterwards.
    let labels = &mut *cells.labels;
    group_refusal::refusal(labels, table, keys, aggregate, column)?;
    let g = Grouping {
        table,
        keys,
        aggregate,
        column,
        width,
    };
    let count = replace(cells, marks, g);
    Ok(memory::with_table(stack, table.slot, width, count))
}
