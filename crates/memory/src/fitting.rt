// Whether a step fits work memory.
ghost use Rattle.std.specs.Prelude.{◌≡◌, []};
ghost use Rattle.memory.specs.promises.Steps as spec;

use cells::DoesNotFit;
use live_tables::{Stack, live_table, ready};
use plan::Step;

// The columns of the table that a step makes, if slices of these lengths and the stack fit it, and the columns that it names exist. No table
// of the container is known here, so no SCAN fits.
pub fn fit(values: usize, labels: usize, stack: Stack, step: Step) -> Result<usize, DoesNotFit>
    ensures { result ≡ spec.fit step [] values labels stack }
{
    if !ready(values, labels, stack) || !kinds::enough_tables(step, stack.depth) {
        return Err(DoesNotFit);
    }
    let none = [0usize; 0];
    let right = live_table(stack, 0);
    let left = live_table(stack, 1);
    widths::made_width(step, &none, left.columns, right.columns).ok_or(DoesNotFit)
}
