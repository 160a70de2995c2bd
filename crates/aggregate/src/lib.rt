// What the aggregates of a group are made of. Values may be locked, so that none of these branches on them.
#![tactic(auto)]

ghost use Rattle.std.specs.Prelude.{◌≡◌, cond};
ghost use Rattle.value.specs.Range.{of_both};
ghost use Rattle.aggregate.specs.Aggregate.{smaller, larger, has_room, accumulated};

use value::choice::chosen;
use value::range::{OVER, both_in_range, in_range};

// The first or the second of two values, by arithmetic and no `if`: they may be locked.
fn of_two(first: bool, a: i64, b: i64) -> i64
    ensures { result ≡ of_both a b (cond first a b) }
{
    chosen(both_in_range(a, b), chosen(first, a, b), OVER)
}

// The smaller of two values.
pub fn smaller(a: i64, b: i64) -> i64
    ensures { result ≡ smaller a b }
{
    of_two(a <= b, a, b)
}

// The larger of two values.
pub fn larger(a: i64, b: i64) -> i64
    ensures { result ≡ larger a b }
{
    of_two(b <= a, a, b)
}

// -2^62.
const LEAST_SUM: i64 = -0x4000_0000_0000_0000;

// 2^62 - 1.
const MOST_SUM: i64 = 0x3fff_ffff_ffff_ffff;

// Whether any value can be added to a sum in 64 bits.
fn has_room(total: i64) -> bool
    ensures { result ≡ has_room total }
{
    (LEAST_SUM <= total) & (total <= MOST_SUM)
}

// A running sum with one value more. It stays where the number is out of range or the sum has no room.
pub fn accumulated(total: i64, v: i64) -> i64
    ensures { result ≡ accumulated total v }
{
    total + chosen(in_range(v) & has_room(total), v, 0)
}
