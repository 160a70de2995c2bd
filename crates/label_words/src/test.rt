// The test of a word, and the stages that it has.
ghost use Rattle.std.specs.Prelude.{◌≡◌};
ghost use Rattle.label_words.specs.Stages.{stage_count, highest};
ghost use Rattle.label_words.specs.WellFormed.{transform_fits, aggregate_fits, noise_fits, well_formed_from, well_formed};

use super::Highest;
use super::fields::{bit, field};

// How many stages a word has: the ones of its top four bits.
pub fn stage_count(word: u32) -> u32
    ensures { result ≡ stage_count word }
{
    (word >> 28).count_ones()
}

// The highest stage of a word, by the zeros above it: their count tells which it is, without a test of each stage.
pub fn highest_stage(word: u32) -> Highest
    ensures { result ≡ highest word }
{
    let above = (word >> 28).leading_zeros() - 28;
    match above {
        0 => Highest::H,
        1 => Highest::T,
        2 => Highest::A,
        3 => Highest::N,
        _ => Highest::Clear,
    }
}

// The fields of stage T. The bit of a stage stands above its fields, which are no more than it exactly where it is one or they are zero. So
// stand the digits below the bit of cut. Of 0 to 7 digits just 0 and 7 leave no one in bits 2 and 1 of the next number.
fn transform_fits(word: u32) -> bool
    ensures { result ≡ transform_fits word }
{
    let digits_lack = bit(word, 26) & ((field(word, 10, 3) + 1) & 6 == 0);
    ((word & 0x0F00_0000) <= (word & 0x4000_0000))
        & ((word & 0x0000_1C00) <= (word & 0x0400_0000))
        & !digits_lack
}

// The fields of stage A, likewise, with a smallest minimum. The stage's bit, turned round, and the minimum are one number, which is below the
// smallest where the stage is present and the minimum too small.
fn aggregate_fits(word: u32, least: u16) -> bool
    ensures { result ≡ aggregate_fits least word }
{
    let minimum_lacks = ((word & 0x2000_03FF) ^ 0x2000_0000) < least as u32;
    ((word & 0x001F_03FF) <= (word & 0x2000_0000)) & !minimum_lacks
}

// The field of stage N, likewise.
fn noise_fits(word: u32) -> bool
    ensures { result ≡ noise_fits word }
{
    (word & 0x0080_0000) <= (word & 0x1000_0000)
}

// Whether a word is a label where no group minimum is below `least`.
pub fn well_formed_from(word: u32, least: u16) -> bool
    ensures { result ≡ well_formed_from least word }
{
    ((word & 0x0060_E000) == 0)
        & transform_fits(word)
        & aggregate_fits(word, least)
        & noise_fits(word)
}

// Whether a word is a label.
#[tactic(auto, unfolding(crate::specs::WellFormed::well_formed))]
pub fn well_formed(word: u32) -> bool
    ensures { result ≡ well_formed word }
{
    well_formed_from(word, 2)
}
