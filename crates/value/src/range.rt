// The range of a value, and OVER, document 01's word for a result outside it.
ghost use Rattle.std.specs.Prelude.{◌≡◌};
ghost use Rattle.value.specs.Range.{in_range, both_in_range, settled};

use crate::choice::chosen;

// -2^47.
const LEAST: i64 = -140_737_488_355_328;

// 2^47 - 1.
const MOST: i64 = 140_737_488_355_327;

// 2^47, the one number that stands for a result outside the range. It is a number and no Option: nothing may branch on a value that may be locked.
pub const OVER: i64 = 140_737_488_355_328;

// Whether a number is a value.
pub fn in_range(v: i64) -> bool
    ensures { result ≡ in_range v }
{
    (LEAST <= v) & (v <= MOST)
}

// Whether two numbers are values.
pub fn both_in_range(a: i64, b: i64) -> bool
    ensures { result ≡ both_in_range a b }
{
    in_range(a) & in_range(b)
}

// The number itself where it is in range, else OVER.
pub fn settled(v: i64) -> i64
    ensures { result ≡ settled v }
{
    chosen(in_range(v), v, OVER)
}
