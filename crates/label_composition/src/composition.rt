// Composition: each field of the new label from the same field of the two labels.
ghost use Rattle.std.specs.Prelude.{◌≡◌};
ghost use Rattle.std.specs.Int.Bits.{bit_and};
ghost use Rattle.label_words.specs.Answers.{label_says};
ghost use Rattle.label_words.specs.Word.{bit_at, field_at};
ghost use Rattle.label_composition.specs.Composition as spec;

use super::packing::pack;
use label_words::{LabelRefusal, bit, field, well_formed};

// The label of what comes from two labelled cells, or that one of the words is no label.
#[tactic(auto, unfolding(crate::specs::Composition::compose_answer))]
pub fn compose(left: u32, right: u32) -> Result<u32, LabelRefusal>
    ensures { label_says result ≡ spec.compose_answer left right }
{
    if well_formed(left) & well_formed(right) {
        Ok(compose_words(left, right))
    } else {
        Err(LabelRefusal::IllFormed)
    }
}

// The same of any two words, labels or not, by their fields: a stage is present if either word has it.
#[tactic(auto, unfolding(crate::specs::Composition::composed, crate::specs::Composition::transforms_both, crate::specs::Composition::aggregates_both, crate::specs::Composition::noise_both))]
pub fn compose_words(a: u32, b: u32) -> u32
    ensures { result ≡ spec.composed a b }
{
    pack(
        field(a, 28, 4) | field(b, 28, 4),
        allowed_both(a, b, 30, 24, 4),
        allowed_both(a, b, 28, 23, 1),
        allowed_both(a, b, 29, 16, 5),
        digits_both(a, b),
        minimum_both(a, b),
    )
}

// The operations that a stage allows, a field of allowed bits: those that both words allow, where both have the stage.
fn allowed_both(a: u32, b: u32, stage: u32, at: u32, width: u32) -> u32
    ensures { result ≡ spec.merged (bit_at a stage) (bit_at b stage) (bit_and (field_at a at width) (field_at b at width)) (field_at a at width) (field_at b at width) }
{
    let left = field(a, at, width);
    let right = field(b, at, width);
    merged(bit(a, stage), bit(b, stage), left & right, left, right)
}

// The digits that a cut must take off: as in `allowed_both`, but the larger, and none where cut is lost.
#[tactic(auto, unfolding(crate::specs::Composition::digits_both))]
fn digits_both(a: u32, b: u32) -> u32
    ensures { result ≡ spec.digits_both a b }
{
    let left = field(a, 10, 3);
    let right = field(b, 10, 3);
    let both = digits_with(field(a, 24, 4) & field(b, 24, 4), left.max(right));
    merged(bit(a, 30), bit(b, 30), both, left, right)
}

// The group minimum: as in `allowed_both`, but the larger.
#[tactic(auto, unfolding(crate::specs::Composition::minimum_both))]
fn minimum_both(a: u32, b: u32) -> u32
    ensures { result ≡ spec.minimum_both a b }
{
    let left = field(a, 0, 10);
    let right = field(b, 0, 10);
    merged(bit(a, 29), bit(b, 29), left.max(right), left, right)
}

// A field of a stage that the left, the right, both or none of two words have: both conditions are arguments of the definition `merged`.
fn merged(in_left: bool, in_right: bool, both: u32, left: u32, right: u32) -> u32
    ensures { result ≡ spec.merged in_left in_right both left right }
{
    match (in_left, in_right) {
        (true, true) => both,
        (true, false) => left,
        (false, true) => right,
        (false, false) => 0,
    }
}

// The digits, if cut is among the transforms.
fn digits_with(transforms: u32, digits: u32) -> u32
    ensures { result ≡ spec.digits_with transforms digits }
{
    if bit(transforms, 2) { digits } else { 0 }
}
