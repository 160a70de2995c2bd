// Discharge of a label by an operation of level T or A.
ghost use Rattle.std.specs.Prelude.{◌≡◌, ◌<◌};
ghost use Rattle.label_words.specs.Answers.{label_says};
ghost use Rattle.label_discharge.specs.Discharge as spec;

use super::level::{AGGREGATES, TRANSFORMS, at_level};
use label_words::{LabelRefusal, bit, field, well_formed};

// The label after an operation of level T: 0 add, 1 sub, 2 cut (by `digits`), 3 band.
#[tactic(auto, unfolding(crate::specs::Discharge::transform_answer, crate::specs::Discharge::transform_exists))]
pub fn discharge_transform(word: u32, operation: u32, digits: u32) -> Result<u32, LabelRefusal>
    ensures { label_says result ≡ spec.transform_answer word operation digits }
{
    if !well_formed(word) {
        return Err(LabelRefusal::IllFormed);
    }
    if !transform_exists(operation, digits) {
        return Err(LabelRefusal::NoOperation);
    }
    at_level(word, TRANSFORMS, allows_transform(word, operation, digits))
}

// The label after an operation of level A, 0 count, 1 sum, 2 min, 3 max, 4 avg, over a group of so many sheets.
#[tactic(auto, unfolding(crate::specs::Discharge::aggregate_answer, crate::specs::Discharge::aggregate_exists))]
pub fn discharge_aggregate(word: u32, operation: u32, sheets: u32) -> Result<u32, LabelRefusal>
    ensures { label_says result ≡ spec.aggregate_answer word operation sheets }
{
    if !well_formed(word) {
        return Err(LabelRefusal::IllFormed);
    }
    if 5 <= operation {
        return Err(LabelRefusal::NoOperation);
    }
    at_level(word, AGGREGATES, allows_aggregate(word, operation, sheets))
}

// Whether there is such an operation of level T.
#[tactic(auto, unfolding(crate::specs::Discharge::transform_exists))]
fn transform_exists(operation: u32, digits: u32) -> bool
    ensures { result ≡ spec.transform_exists operation digits }
{
    (operation < 4) & ((operation != 2) | (1..=6).contains(&digits))
}

// Whether stage T allows the operation; a cut takes off at least the digits named there.
#[tactic(auto, unfolding(crate::specs::Discharge::allows_transform))]
fn allows_transform(word: u32, operation: u32, digits: u32) -> bool
    requires { operation < 4 }
    ensures { result ≡ spec.allows_transform word operation digits }
{
    bit(word, 24 + operation) & ((operation != 2) | (field(word, 10, 3) <= digits))
}

// Whether stage A allows the operation over so many sheets.
#[tactic(auto, unfolding(crate::specs::Discharge::allows_aggregate, crate::specs::Discharge::enough_sheets))]
fn allows_aggregate(word: u32, operation: u32, sheets: u32) -> bool
    requires { operation < 5 }
    ensures { result ≡ spec.discharges_a word operation sheets }
{
    bit(word, 16 + operation) & (field(word, 0, 10) <= sheets)
}
