// The numbers of steps, as documents 01 and 02 give them. They are no discriminants: some variants have fields.
ghost use Rattle.std.specs.Prelude.{◌≡◌};
ghost use Rattle.plan.specs.Numbers as spec;

use plan::Step;

// The number of a step's kind.
pub fn kind_of(step: Step) -> u32
    ensures { result ≡ spec.kind_of step }
{
    match step {
        Step::Scan { .. } => 1,
        Step::Union => 2,
        Step::Join { .. } => 3,
        Step::Filter { .. } => 4,
        Step::Keep { .. } => 5,
        Step::Apply { .. } => 6,
        Step::Group { .. } => 7,
        Step::Noise { .. } => 8,
    }
}
