// What a run answers.
#![tactic(auto)]

ghost use Rattle.std.specs.Prelude.{◌≡◌};
ghost use Rattle.run_answers.specs.Answers.{run_says};
ghost use Rattle.run_answers.specs.promises.Releases.{release_tells};

use cells::At;
use input::InputRefusal;
use memory::Refusal;
use release::ReleaseRefusal;

// A release with its rows, its columns and the bytes of its text.
#[derive(Clone, Copy, PartialEq, Eq, Debug)]
pub struct Released {
    pub rows: usize,
    pub columns: usize,
    pub bytes: usize,
}

// Why a run releases nothing. 1 is `TooShort`; a refusal of the input, 11 to 22, has its place, and one of a step, 31 to 34 or 37, the step's number; 35
// is `StageLeft` and 36 `Over`, at a step and a cell; 51 is `NoRoom`, at the number of steps.
#[derive(Clone, Copy, PartialEq, Eq, Debug)]
pub enum RunRefusal {
    TooShort,
    Input(InputRefusal),
    Step(usize, Refusal),
    StageLeft(usize, At),
    Over(usize, At),
    NoRoom(usize),
}

// The answer to the release of the table of so many rows and columns that so many steps leave. Slices without such a table, or an output without
// room for it, are too short; no run meets that case, as the proof of `evaluator::run` shows.
pub fn of_release(
    answer: Result<usize, ReleaseRefusal>,
    steps: usize,
    rows: usize,
    columns: usize,
) -> Result<Released, RunRefusal>
    ensures { run_says result ≡ release_tells steps rows columns answer }
{
    match answer {
        Ok(bytes) => Ok(Released {
            rows,
            columns,
            bytes,
        }),
        Err(ReleaseRefusal::StageLeft(at)) => Err(RunRefusal::StageLeft(steps, at)),
        Err(ReleaseRefusal::Over(at)) => Err(RunRefusal::Over(steps, at)),
        Err(ReleaseRefusal::NoRoom) => Err(RunRefusal::NoRoom(steps)),
        Err(ReleaseRefusal::DoesNotFit) => Err(RunRefusal::TooShort),
    }
}
