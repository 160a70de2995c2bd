// The container's layout: its part count and rule year, and where each part stands by its pair of the directory.
#![tactic(auto)]

ghost use Rattle.std.specs.Prelude.{◌≡◌, ◌+◌, ◌≤◌, min, leb};
ghost use Rattle.layout.specs.Layout.{part_count, rule_year, pair_at, offset_of, length_of, part_of};
ghost use Rattle.little_endian.specs.Bytes.{number_at};

use little_endian::{byte, four};

// How many parts a container says that it has.
pub fn part_count(container: &[u8]) -> usize
    ensures { result ≡ part_count container.now }
{
    byte(container, 0) as usize
}

// The rule year of a container.
pub fn rule_year(container: &[u8]) -> u8
    ensures { result ≡ rule_year container.now }
{
    byte(container, 1)
}

// The number of four bytes in the pair of a part, `from` bytes after its begin. A pair past the end has zeros.
#[tactic(auto, using(little_endian::proofs::Numbers::past_end))]
fn in_pair(container: &[u8], index: usize, from: usize) -> u32
    requires { from ≤ 4 }
    ensures { result ≡ number_at container.now (pair_at index + from) 4 }
{
    if index <= container.len() / 8 {
        four(container, 2 + 8 * index + from)
    } else {
        0
    }
}

// Where a part begins, by its pair.
pub fn part_offset(container: &[u8], index: usize) -> u32
    ensures { result ≡ offset_of container.now index }
{
    in_pair(container, index, 0)
}

// How long a part is, by its pair.
pub fn part_length(container: &[u8], index: usize) -> u32
    ensures { result ≡ length_of container.now index }
{
    in_pair(container, index, 4)
}

// Whether so many bytes hold the pair of a part.
fn has_pair(len: usize, index: usize) -> bool
    ensures { result ≡ leb (pair_at index + 8) len }
{
    10 <= len && index <= (len - 10) / 8
}

// The bytes of a part, as far as the container has them; none where it does not hold the part's pair.
pub fn part(container: &[u8], index: usize) -> &[u8]
    ensures { result.now ≡ part_of container.now index }
{
    let len = container.len();
    if !has_pair(len, index) {
        return &container[len..];
    }
    let from = (part_offset(container, index) as usize).min(len);
    let to = from + (part_length(container, index) as usize).min(len - from);
    &container[from..to]
}
