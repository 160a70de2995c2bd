// The numbers of the operations of APPLY and GROUP, as document 01 gives them: the definitions of `plan` have them, case by case.
ghost use Rattle.std.specs.Prelude.{◌≡◌};
ghost use Rattle.plan.specs.Numbers as spec;
ghost use Rattle.operations.specs.promises.Operations.{operation_fits};

use plan::{Aggregate, Transform};

// The number of APPLY's operation: a match, since a case with a field has no number to cast to.
pub fn transform_code(transform: Transform) -> u32
    ensures { result ≡ spec.transform_code transform }
{
    match transform {
        Transform::Add(_) => 0,
        Transform::Sub(_) => 1,
        Transform::Cut(_) => 2,
        Transform::Band(_) => 3,
    }
}

// The digits that a cut takes off; of any other operation 0.
pub fn digits_of(transform: Transform) -> u32
    ensures { result ≡ spec.digits_taken transform }
{
    match transform {
        Transform::Cut(digits) => digits,
        _ => 0,
    }
}

// The number of GROUP's aggregate. The contract holds the order of the enum to document 01's numbers.
pub fn aggregate_code(aggregate: Aggregate) -> u32
    ensures { result ≡ spec.aggregate_code aggregate }
{
    aggregate as u32
}

// Whether APPLY's operation exists: a cut takes off 1 to 6 digits.
#[tactic(auto, unfolding(label_discharge::specs::Discharge::transform_exists))]
pub fn operation_fits(transform: Transform) -> bool
    ensures { result ≡ operation_fits transform }
{
    match transform {
        Transform::Cut(digits) => (1..=6).contains(&digits),
        _ => true,
    }
}
