// "APPLY .. Appends a column; the first column stays. The new label is the first operand's, discharged at level T."
ghost use Rattle.cells.specs.promises.Lent.{work_held, SameCells};
ghost use Rattle.memory.specs.promises.Steps.{DoneWhere, Unmoved};
ghost use Rattle.plan.specs.Supply.{Supply};
ghost use Rattle.plan.specs.declared.Step.TheVariants.{Apply};
ghost use Rattle.apply.specs.promises.Fits.{apply_fits};

use crate::applied::Applied;
use cells::LentCells;
use memory::{Stack, StepError};
use plan::{Step, Transform};

// Appends to the top table a column of what the transform makes of one of its columns. Labels that are not well-formed, or an
// operation that does not exist, do not fit.
pub fn apply(
    cells: &mut LentCells,
    stack: Stack,
    column: usize,
    transform: Transform,
) -> Result<Stack, StepError>
    ensures done { (supply : Supply)
        → Unmoved (λ before after. DoneWhere (apply_fits column transform supply before stack) (Apply column transform) supply before stack result after)
        (work_held cells.old) (work_held cells.new) }
    ensures same { SameCells cells.old cells.new }
{
    let step = Step::Apply { column, transform };
    let columns = memory::fit(cells.values.len(), cells.labels.len(), stack, step)?;
    let top = memory::live_table(stack, 0);
    // Lent as a `&mut`: of a field lent as a `&` the proof would know the length alone afterwards.
    let labels = &mut *cells.labels;
    apply_refusal::refusal(labels, top, column, transform)?;
    extension::extend(cells, top, column, &Applied { transform });
    Ok(memory::with_table(stack, top.slot, columns, top.rows))
}
