// What the labels and the draws left refuse of a NOISE. #102: "forbidden with 32 where T, A or H stands highest"; "37 at a row for which no draw
// is left, column a, after 32 in that row".
#![tactic(auto)]

ghost use Rattle.std.specs.Prelude.{◌≡◌, true};
ghost use Rattle.cells.specs.promises.Search.{says};
ghost use Rattle.label_discharge.specs.Discharge.{forbids_n};
ghost use Rattle.label_words.specs.WellFormed.{well_formed};
ghost use Rattle.memory.specs.promises.Steps.{step_says};
ghost use Rattle.plan.specs.Noise.{noise_refusal};
ghost use Rattle.noise_refusal.specs.promises.Refusals.{noise_says};

use cells::At;
use label::LabelRefusal;
use memory::{LiveTable, Refusal, StepError};

// The first refusal, row by row, with so many draws left. A table that is not within the labels or does not have the column, and labels in the
// column that are not well-formed, do not fit. APPLY has a loop of its own: with the test of a row as a parameter it would be no shorter.
pub fn refusal(
    labels: &[u32],
    table: LiveTable,
    column: usize,
    left: usize,
) -> Result<(), StepError>
    ensures { step_says result ≡ noise_says labels.now table column left }
{
    if !search::column_formed(labels, table.area(), column) {
        return Err(StepError::DoesNotFit);
    }
    for row in 0..table.rows {
        let word = labels[table.at + row * table.columns + column];
        row_refusal(word, row, column, left)?;
    }
    Ok(())
}

// The refusal of one row: by the label of its value, and then for want of a draw.
fn row_refusal(word: u32, row: usize, column: usize, left: usize) -> Result<(), StepError>
    requires { well_formed word ≡ true }
    ensures { step_says result ≡ says (noise_refusal column left row word) }
{
    if forbidden(word) {
        return Err(StepError::Refused(Refusal::Forbidden(At { row, column })));
    }
    if left <= row {
        return Err(StepError::Refused(Refusal::NoDraw(At { row, column })));
    }
    Ok(())
}

// Whether noise is forbidden on a label.
fn forbidden(word: u32) -> bool
    requires { well_formed word ≡ true }
    ensures { result ≡ forbids_n word }
{
    label::discharge_noise(word) == Err(LabelRefusal::Forbidden)
}
