// What the labels refuse of a GROUP: 31 over all keys, and then 32. "In GROUP, after all keys."
#![tactic(auto)]

ghost use Rattle.std.specs.Prelude.{◌≡◌, true};
ghost use Rattle.cells.specs.promises.Labelled.{column_formed_at};
ghost use Rattle.cells.specs.promises.Search.{says};
ghost use Rattle.label_discharge.specs.Discharge.{forbids_a};
ghost use Rattle.label_words.specs.WellFormed.{well_formed};
ghost use Rattle.memory.specs.promises.Stack.{labels_in};
ghost use Rattle.memory.specs.promises.Steps.{step_says};
ghost use Rattle.plan.specs.Verdict.{first_row};
ghost use Rattle.group_refusal.specs.promises.Refusals as spec;

use cells::At;
use label::LabelRefusal;
use memory::{LiveTable, Refusal, StepError};
use plan::Aggregate;

// The refusal: 31 over all keys, then 32 over the column that is aggregated. A table that is not within the labels or does not have the
// column, and labels in the column that are not well-formed, do not fit.
pub fn refusal(
    labels: &[u32],
    table: LiveTable,
    keys: u32,
    aggregate: Aggregate,
    column: usize,
) -> Result<(), StepError>
    ensures { step_says result ≡ spec.group_says labels.now table keys column }
{
    let area = table.area();
    if !search::column_formed(labels, area, column) {
        return Err(StepError::DoesNotFit);
    }
    if let Some(at) = search::not_clear(labels, area, keys)? {
        return Err(StepError::Refused(Refusal::NotClear(at)));
    }
    forbidden(labels, table, aggregate, column)
}

// The first row whose label in the column forbids the aggregate.
fn forbidden(
    labels: &[u32],
    table: LiveTable,
    aggregate: Aggregate,
    column: usize,
) -> Result<(), StepError>
    requires { column_formed_at labels.now table.at table.rows table.columns column ≡ true }
    ensures { step_says result ≡ says (first_row (spec.forbids_at column) 0 (labels_in labels.now table)) }
{
    for row in 0..table.rows {
        let label = labels[table.at + row * table.columns + column];
        if forbids(label, aggregate) {
            return Err(StepError::Refused(Refusal::Forbidden(At { row, column })));
        }
    }
    Ok(())
}

// Whether a label forbids an aggregate, as the label library answers. It forbids every aggregate, over a group of any size, or none.
fn forbids(word: u32, aggregate: Aggregate) -> bool
    requires { well_formed word ≡ true }
    ensures { result ≡ forbids_a word }
{
    let code = operations::aggregate_code(aggregate);
    label::discharge_aggregate(word, code, 1) == Err(LabelRefusal::Forbidden)
}
