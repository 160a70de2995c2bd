// The draws that a step uses.
ghost use Rattle.std.specs.Prelude.{◌≡◌};
ghost use Rattle.plan.specs.Steps as spec;

use plan::Step;

// How many draws a step uses on a table of so many rows: NOISE one for each, and no other step any.
pub fn draws_used(step: Step, rows: usize) -> usize
    ensures { result ≡ spec.draws_used step rows }
{
    match step {
        Step::Noise { .. } => rows,
        _ => 0,
    }
}
