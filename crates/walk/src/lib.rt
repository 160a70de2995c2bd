// The steps of a container's plan, taken one after the other over work memory, and their trace lines.
#![tactic(auto)]

ghost use Rattle.std.specs.Prelude.{◌≡◌};

mod steps;

use input::InputRefusal;
use memory::Refusal;
pub use steps::walk;

// All steps of a plan are finished: how many, and the rows and columns of the table that they leave, which stands at the start of work memory.
#[derive(Clone, Copy, PartialEq, Eq, Debug)]
pub struct Finished {
    pub steps: usize,
    pub rows: usize,
    pub columns: usize,
}

// Why they are not: a slice is too short, or the container is not accepted, and no step was taken; or a step refuses, with its number.
#[derive(Clone, Copy, PartialEq, Eq, Debug)]
pub enum WalkRefusal {
    TooShort,
    Input(InputRefusal),
    Step(usize, Refusal),
}

impl From<InputRefusal> for WalkRefusal {
    ghost use Rattle.walk.specs.declared.WalkRefusal.TheVariants.{Input};

    ghost from_gives = { λ refusal given. given ≡ Input refusal };

    fn from(refusal: InputRefusal) -> WalkRefusal {
        WalkRefusal::Input(refusal)
    }
}
