// The six comparisons, false where a number is out of range, and the equality of group keys. Each is one line with its operator: over the operator as a
// parameter they would be no plainer.
#![tactic(auto)]

ghost use Rattle.std.specs.Prelude.{◌≡◌};
ghost use Rattle.comparison.specs.Comparison.{equal, unequal, less, at_most, greater, at_least, same};

use value::range::{both_in_range, settled};

// Two values, a = b.
pub fn equal(a: i64, b: i64) -> bool
    ensures { result ≡ equal a b }
{
    both_in_range(a, b) & (a == b)
}

// Two values, a ≠ b.
pub fn unequal(a: i64, b: i64) -> bool
    ensures { result ≡ unequal a b }
{
    both_in_range(a, b) & (a != b)
}

// Two values, a < b.
pub fn less(a: i64, b: i64) -> bool
    ensures { result ≡ less a b }
{
    both_in_range(a, b) & (a < b)
}

// Two values, a ≤ b.
pub fn at_most(a: i64, b: i64) -> bool
    ensures { result ≡ at_most a b }
{
    both_in_range(a, b) & (a <= b)
}

// Two values, a > b.
pub fn greater(a: i64, b: i64) -> bool
    ensures { result ≡ greater a b }
{
    less(b, a)
}

// Two values, a ≥ b.
pub fn at_least(a: i64, b: i64) -> bool
    ensures { result ≡ at_least a b }
{
    at_most(b, a)
}

// Whether two numbers are one group key. OVER and OVER are.
pub fn same(a: i64, b: i64) -> bool
    ensures { result ≡ same a b }
{
    settled(a) == settled(b)
}
