// Discharge of a label by noise, the one operation of level N.
ghost use Rattle.std.specs.Prelude.{◌≡◌};
ghost use Rattle.label_words.specs.Answers.{label_says};
ghost use Rattle.label_discharge.specs.Discharge as spec;

use super::level::{NOISE, at_level};
use label_words::{LabelRefusal, bit, well_formed};

// The label after noise.
#[tactic(auto, unfolding(crate::specs::Discharge::noise_answer))]
pub fn discharge_noise(word: u32) -> Result<u32, LabelRefusal>
    ensures { label_says result ≡ spec.noise_answer word }
{
    if !well_formed(word) {
        return Err(LabelRefusal::IllFormed);
    }
    at_level(word, NOISE, bit(word, 23))
}
