// The answers of a run, of the input checks and of a conversion as numbers.
#![tactic(auto)]

ghost use Rattle.std.specs.Prelude.{[], ◌∷◌, ◌≡◌, ◌≤◌, get_or};
ghost use Rattle.input.specs.Answers.{input_tells, input_says};
ghost use Rattle.run_answers.specs.Answers.{run_says};
ghost use Rattle.call_demands.specs.Calls.{numbers_of, check_numbers_of, convert_numbers_of};
ghost use Rattle.conversion.specs.Converting.{conversion_says};

use conversion::ConversionRefusal;
use input::InputRefusal;
use run_answers::{Released, RunRefusal};

// The numbers of a run's answer.
pub fn run_numbers(answer: Result<Released, RunRefusal>) -> [u64; 4]
    ensures value { result ≡ numbers_of (run_says answer) }
    ensures result_bound { get_or result 0 0 ≤ 51 }
{
    match answer {
        Ok(made) => [0, made.rows as u64, made.columns as u64, made.bytes as u64],
        Err(RunRefusal::TooShort) => [1, 0, 0, 0],
        Err(RunRefusal::Input(refusal)) => {
            let [number, place] = input_numbers(refusal);
            [number, place, 0, 0]
        }
        Err(RunRefusal::Step(step, refusal)) => {
            let (number, at) = (refusal.number(), refusal.at());
            [number as u64, step as u64, at.row as u64, at.column as u64]
        }
        Err(RunRefusal::StageLeft(step, at)) => [35, step as u64, at.row as u64, at.column as u64],
        Err(RunRefusal::Over(step, at)) => [36, step as u64, at.row as u64, at.column as u64],
        Err(RunRefusal::NoRoom(steps)) => [51, steps as u64, 0, 0],
    }
}

// The numbers of what the input checks answer.
pub fn check_numbers(check: Result<(), InputRefusal>) -> [u64; 2]
    ensures value { result ≡ check_numbers_of (input_says check) }
    ensures result_bound { get_or result 0 0 ≤ 22 }
{
    match check {
        Ok(()) => [0, 0],
        Err(refusal) => input_numbers(refusal),
    }
}

// The numbers of what a conversion answers.
pub fn conversion_numbers(answer: Result<usize, ConversionRefusal>) -> [u64; 2]
    ensures value { result ≡ convert_numbers_of (conversion_says answer) }
    ensures result_bound { get_or result 0 0 ≤ 22 }
{
    match answer {
        Ok(count) => [0, count as u64],
        Err(refusal) => {
            let number = refusal.number();
            [number as u64, refusal.place() as u64]
        }
    }
}

// The number and the place of a refusal because of the input.
fn input_numbers(refusal: InputRefusal) -> [u64; 2]
    ensures value { result ≡ input_tells (λ number place. number ∷ place ∷ []) refusal }
    ensures result_bound { get_or result 0 0 ≤ 22 }
{
    [refusal.number() as u64, refusal.place() as u64]
}
