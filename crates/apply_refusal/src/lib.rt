// What the labels refuse of an APPLY. "32: APPLY .. forbidden by the first operand's label." "33: APPLY's second operand is not clear; in each
// row after 32."
#![tactic(auto)]

ghost use Rattle.std.specs.Prelude.{◌≡◌, true, ◌<◌, length, get_or};
ghost use Rattle.cells.specs.promises.Search.{says};
ghost use Rattle.operations.specs.promises.Operations.{operation_fits};
ghost use Rattle.label_discharge.specs.Discharge.{forbids_t, transform_answer};
ghost use Rattle.label_words.specs.Answers.{label_says};
ghost use Rattle.label_words.specs.WellFormed.{well_formed};
ghost use Rattle.memory.specs.promises.Steps.{step_says};
ghost use Rattle.plan.specs.Apply.{operand_clear, second_clear, apply_row};
ghost use Rattle.plan.specs.Numbers.{transform_code, digits_taken};
ghost use Rattle.apply_refusal.specs.promises.Refusals.{apply_says};

use cells::At;
use label::LabelRefusal;
use memory::{LiveTable, Refusal, StepError};
use plan::{Operand, Transform};

// The first refusal, row by row. An operation that does not exist, a table that is not within the labels or does not have the column, and
// labels in the column that are not well-formed, do not fit. A second operand of a column that the table does not have is clear.
// NOISE has a loop of its own: with the test of a row as a parameter it would be no shorter.
pub fn refusal(
    labels: &[u32],
    table: LiveTable,
    column: usize,
    transform: Transform,
) -> Result<(), StepError>
    ensures { step_says result ≡ apply_says labels.now table column transform }
{
    if !operations::operation_fits(transform)
        || !search::column_formed(labels, table.area(), column)
    {
        return Err(StepError::DoesNotFit);
    }
    for row in 0..table.rows {
        let from = table.at + row * table.columns;
        row_refusal(&labels[from..from + table.columns], row, column, transform)?;
    }
    Ok(())
}

// The refusal of the row with these labels: by its first operand, and then by its second.
fn row_refusal(
    labels: &[u32],
    row: usize,
    column: usize,
    transform: Transform,
) -> Result<(), StepError>
    requires has_column { column < length labels.now }
    requires fits { (well_formed (get_or labels.now column 0) ≡ true) × (operation_fits transform ≡ true) }
    ensures { step_says result ≡ says (apply_row column transform row labels.now) }
{
    if forbidden(labels[column], transform) {
        return Err(StepError::Refused(Refusal::Forbidden(At { row, column })));
    }
    second_refusal(labels, row, transform)
}

// Whether the transform is forbidden on a label.
fn forbidden(word: u32, transform: Transform) -> bool
    requires { (well_formed word ≡ true) × (operation_fits transform ≡ true) }
    ensures { result ≡ forbids_t word }
{
    discharged(word, transform) == Err(LabelRefusal::Forbidden)
}

// The label that a transform leaves of one, as the label library answers.
pub fn discharged(word: u32, transform: Transform) -> Result<u32, LabelRefusal>
    ensures { label_says result ≡ transform_answer word (transform_code transform) (digits_taken transform) }
{
    label::discharge_transform(
        word,
        operations::transform_code(transform),
        operations::digits_of(transform),
    )
}

// 33 in one row.
fn second_refusal(labels: &[u32], row: usize, transform: Transform) -> Result<(), StepError>
    ensures { step_says result ≡ says (second_clear transform row labels.now) }
{
    match transform {
        Transform::Add(operand) | Transform::Sub(operand) => operand_refusal(labels, row, operand),
        Transform::Cut(_) | Transform::Band(_) => Ok(()),
    }
}

fn operand_refusal(labels: &[u32], row: usize, operand: Operand) -> Result<(), StepError>
    ensures { step_says result ≡ says (operand_clear operand row labels.now) }
{
    match operand {
        Operand::Column(column) if column < labels.len() && labels[column] != 0 => {
            Err(StepError::Refused(Refusal::OperandNotClear(At { row, column })))
        }
        Operand::Constant(_) | Operand::Column(_) => Ok(()),
    }
}
