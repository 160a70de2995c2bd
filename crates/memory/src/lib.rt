// Work memory: its live tables, whether a step fits them, and what a step answers.
#![tactic(auto)]

ghost use Rattle.std.specs.Prelude.{◌≡◌};
ghost use Rattle.memory.specs.Refusals.{refusal_tells};
ghost use Rattle.memory.specs.declared.StepError.TheVariants.{Refused, DoesNotFit};

mod fitting;

use cells::{At, DoesNotFit};
pub use fitting::fit;
pub use live_tables::{
    LAST_MARKS, LAST_SLOT, LiveTable, MARK_ROOM, MARK_SLOT, ROOM, SLOT, Stack, live_table,
    no_tables, ready, with_table,
};

// What a step refuses because of the state: 31, 32 and 33 at a cell, 34, whose place is fixed, and 37 at a cell.
#[derive(Clone, Copy, PartialEq, Eq, Debug)]
pub enum Refusal {
    NotClear(At),
    Forbidden(At),
    OperandNotClear(At),
    TooMany,
    NoDraw(At),
}

// Why a step makes no table: it is refused, or its arguments do not fit.
#[derive(Clone, Copy, PartialEq, Eq, Debug)]
pub enum StepError {
    Refused(Refusal),
    DoesNotFit,
}

impl From<Refusal> for StepError {
    ghost from_gives = { λ refusal error. error ≡ Refused refusal };

    fn from(refusal: Refusal) -> StepError {
        StepError::Refused(refusal)
    }
}

impl From<DoesNotFit> for StepError {
    ghost from_gives = { λ wrong error. error ≡ DoesNotFit };

    fn from(_wrong: DoesNotFit) -> StepError {
        StepError::DoesNotFit
    }
}

impl Refusal {
    // Its number in documents 01 and 02.
    pub fn number(self) -> u32
        ensures { result ≡ refusal_tells (λ number row column. number) self }
    {
        match self {
            Refusal::NotClear(_) => 31,
            Refusal::Forbidden(_) => 32,
            Refusal::OperandNotClear(_) => 33,
            Refusal::TooMany => 34,
            Refusal::NoDraw(_) => 37,
        }
    }

    // The row and the column that it tells: 256 and 0 for 34.
    pub fn at(self) -> At
        ensures { result ≡ refusal_tells (λ number row column. record { row = row; column = column }) self }
    {
        match self {
            Refusal::NotClear(at)
            | Refusal::Forbidden(at)
            | Refusal::OperandNotClear(at)
            | Refusal::NoDraw(at) => at,
            Refusal::TooMany => At {
                row: 256,
                column: 0,
            },
        }
    }
}
