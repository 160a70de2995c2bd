// "NOISE .. appends a column: each row's value plus the next number from a lent list of signed draws."
ghost use Rattle.std.specs.Prelude.{List};
ghost use Rattle.cells.specs.promises.Lent.{work_held, SameCells};
ghost use Rattle.memory.specs.promises.Steps.{DoneWhere, Unmoved};
ghost use Rattle.plan.specs.Supply.{supplied};
ghost use Rattle.plan.specs.Table.{Table};
ghost use Rattle.plan.specs.declared.Step.TheVariants.{Noise};
ghost use Rattle.noise.specs.promises.Fits.{noise_fits};

use crate::noisy::Noisy;
use cells::LentCells;
use memory::{Stack, StepError};
use plan::Step;

// Appends to the top table a column of what the draws make of one of its columns, the first draw for the first row. Labels that are not
// well-formed do not fit.
pub fn noise(
    draws: &[i64],
    cells: &mut LentCells,
    stack: Stack,
    column: usize,
) -> Result<Stack, StepError>
    ensures done { (tables : List Table)
        → Unmoved (λ before after. DoneWhere (noise_fits column (supplied tables draws.now) before stack) (Noise column)
        (supplied tables draws.now) before stack result after)
        (work_held cells.old) (work_held cells.new) }
    ensures same { SameCells cells.old cells.new }
{
    let step = Step::Noise { column };
    let columns = memory::fit(cells.values.len(), cells.labels.len(), stack, step)?;
    let top = memory::live_table(stack, 0);
    // Lent as a `&mut`: of a field lent as a `&` the proof would know the length alone afterwards.
    let labels = &mut *cells.labels;
    noise_refusal::refusal(labels, top, column, draws.len())?;
    extension::extend(cells, top, column, &Noisy { draws });
    Ok(memory::with_table(stack, top.slot, columns, top.rows))
}
