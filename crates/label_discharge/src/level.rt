// A level of discharge, and its rule.
ghost use Rattle.std.specs.Prelude.{◌≡◌, cond, not, ◌&&◌, eqb};
ghost use Rattle.std.specs.Int.Bits.{bit_and};
ghost use Rattle.label_words.specs.Answers.{label_says, label, forbidden};
ghost use Rattle.label_words.specs.Word.{bit_at};

use label_words::{LabelRefusal, bit};

// A level, by masks of a word: the stages above its own, and what stays where its own stage goes with its fields; and the bit of its own stage.
// Nothing compares two of them.
#[derive(Clone, Copy)]
pub struct Level {
    above: u32,
    stage: u32,
    kept: u32,
}

// Bits 22, 21, 15, 14 and 13 are zero in a label.
pub const TRANSFORMS: Level = Level {
    above: 0x8000_0000,
    stage: 30,
    kept: 0b1011_0000_1_00_11111_000_000_1111111111,
};

pub const AGGREGATES: Level = Level {
    above: 0xC000_0000,
    stage: 29,
    kept: 0b1101_1111_1_00_00000_000_111_0000000000,
};

pub const NOISE: Level = Level {
    above: 0xE000_0000,
    stage: 28,
    kept: 0b1110_1111_0_00_11111_000_111_1111111111,
};

// The rule: forbidden under a stage above the level's own, and its own goes if it allows the operation, which each level tests in its own way.
pub fn at_level(word: u32, level: Level, allowed: bool) -> Result<u32, LabelRefusal>
    ensures { label_says result ≡ cond (not (eqb (bit_and word level.above) 0)) forbidden
        (label (cond (bit_at word level.stage && allowed) (bit_and word level.kept) word)) }
{
    if word & level.above != 0 {
        return Err(LabelRefusal::Forbidden);
    }
    Ok(if bit(word, level.stage) & allowed {
        word & level.kept
    } else {
        word
    })
}
