// The test of a label, and the stages that it has, a byte at a time from the top.
ghost use Rattle.std.specs.Int.Count.{ones};
ghost use Rattle.std.specs.Prelude.{eqb, leb, length, cond, ◌&&◌, ◌≡◌, ◌+◌, ◌/◌, ◌≤◌};
ghost use Rattle.label_words.specs.Stages.{stage_count};
ghost use Rattle.label_words.specs.WellFormed.{well_formed};
ghost use Rattle.little_endian.specs.Bytes.{number_at};
ghost use Rattle.label_bytes.specs.Bytes.{first_fits, second_fits, third_fits};

use label_words::{bit, field};

// How many stages a label has, by its first byte.
pub fn stage_count(label: &[u8; 4]) -> u32
    ensures { result ≡ stage_count (number_at label.now 0 4) }
{
    upper_ones(label[3])
}

// The ones of a byte's upper half, bit by bit while there is one left. `count_ones` is how the product counts: tests/labels takes the
// times of both, and asks that this be the slower.
fn upper_ones(byte: u8) -> u32
    ensures { result ≡ ones (byte / 16) }
{
    let mut rest = byte as u32 / 16;
    let mut count = 0;
    while rest != 0 {
        count += rest % 2;
        rest /= 2;
    }
    count
}

// A number from `low` to `high` where it is asked for, else 0.
fn within(asked: bool, low: u32, high: u32, number: u32) -> bool
    ensures { result ≡ cond asked (leb low number && leb number high) (eqb number 0) }
{
    if asked {
        (low <= number) & (number <= high)
    } else {
        number == 0
    }
}

// The first byte: H, T, A, N, and what T allows.
fn first_fits(first: u32) -> bool
    ensures { result ≡ first_fits first }
{
    bit(first, 6) | (field(first, 0, 4) == 0)
}

// The second: what N allows, two zeros, and what A allows.
fn second_fits(first: u32, second: u32) -> bool
    ensures { result ≡ second_fits first second }
{
    (bit(first, 4) | (field(second, 7, 1) == 0))
        & (field(second, 5, 2) == 0)
        & (bit(first, 5) | (field(second, 0, 5) == 0))
}

// The third: three zeros, the digits, and the upper two bits of the minimum, which are tested with the fourth.
#[tactic(auto, unfolding(label_words::specs::WellFormed::digits_fit))]
fn third_fits(first: u32, third: u32) -> bool
    ensures { result ≡ third_fits first third }
{
    (field(third, 5, 3) == 0) & within(bit(first, 2), 1, 6, field(third, 2, 3))
}

// Whether four bytes are a label, by each up to the first that does not fit.
pub fn well_formed(label: &[u8; 4]) -> bool
    ensures { result ≡ well_formed (number_at label.now 0 4) }
{
    let first = label[3] as u32;
    if !first_fits(first) {
        return false;
    }
    let second = label[2] as u32;
    if !second_fits(first, second) {
        return false;
    }
    let third = label[1] as u32;
    if !third_fits(first, third) {
        return false;
    }
    within(
        bit(first, 5),
        2,
        1023,
        256 * field(third, 0, 2) + label[0] as u32,
    )
}
