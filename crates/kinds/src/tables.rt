// The tables that a step takes off the stack.
ghost use Rattle.std.specs.Prelude.{◌≡◌};
ghost use Rattle.plan.specs.Steps as steps;
ghost use Rattle.plan.specs.Widths as spec;

use plan::Step;

// How many tables a step takes off the stack.
pub fn takes(step: Step) -> usize
    ensures { result ≡ steps.takes step }
{
    match step {
        Step::Scan { .. } => 0,
        Step::Union | Step::Join { .. } => 2,
        Step::Filter { .. } | Step::Keep { .. } => 1,
        Step::Apply { .. } | Step::Group { .. } | Step::Noise { .. } => 1,
    }
}

// 18: whether so many tables are enough for a step, and leave room for a SCAN.
pub fn enough_tables(step: Step, depth: usize) -> bool
    ensures { result ≡ spec.enough_tables step depth }
{
    let taken = takes(step);
    if taken == 0 {
        depth < 3
    } else {
        taken <= depth
    }
}
