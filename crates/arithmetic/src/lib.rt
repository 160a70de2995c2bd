// The operations on one value or two. Cut and band are document 01's words. A value may be locked, so that none of these branches on one; k is the plan's.
#![tactic(auto)]

ghost use Rattle.std.specs.Prelude.{◌≡◌, ◌≤◌, ◌^◌, true, pos, nat_abs, ◌-ℤ◌, ◌*ℤ◌};
ghost use Rattle.std.specs.Int.Signed.{le_z, quot_z};
ghost use Rattle.value.specs.Division.{floored};
ghost use Rattle.arithmetic.specs.Arithmetic.{plus, minus, cut, band};

use value::choice::{chosen, folded};
use value::range::{OVER, both_in_range, in_range, settled};

// The sum of two values. `minus` differs in the operator alone: over the operator as a parameter the two would be no plainer.
pub fn plus(a: i64, b: i64) -> i64
    ensures { result ≡ plus a b }
{
    let both = both_in_range(a, b);
    settled(chosen(both, a, OVER) + chosen(both, b, 0))
}

// The difference of two values.
pub fn minus(a: i64, b: i64) -> i64
    ensures { result ≡ minus a b }
{
    let both = both_in_range(a, b);
    settled(chosen(both, a, OVER) - chosen(both, b, 0))
}

// The powers of ten from 10^1 to 10^6.
const POWERS: [i64; 6] = [10, 100, 1_000, 10_000, 100_000, 1_000_000];

// A number divided by 10^k, toward zero. Each division is by a constant, of which the compiler makes a product: it takes the same time for every number.
fn quotient(k: u32, v: i64) -> i64
    requires { (1 ≤ k) × (k ≤ 6) }
    ensures { result ≡ quot_z v (pos (10 ^ k)) }
{
    match k {
        1 => v / POWERS[0],
        2 => v / POWERS[1],
        3 => v / POWERS[2],
        4 => v / POWERS[3],
        5 => v / POWERS[4],
        _ => v / POWERS[5],
    }
}

// A value divided by 10^k, toward zero, k from 1 to 6.
pub fn cut(k: u32, v: i64) -> i64
    ensures { result ≡ cut k v }
{
    if (1 <= k) & (k <= 6) {
        let inside = in_range(v);
        chosen(inside, quotient(k, chosen(inside, v, 0)), OVER)
    } else {
        OVER
    }
}

// How far a number is above the largest multiple of k that is not above it: the remainder of the folded number, which counts down from k - 1 where the
// number is below zero.
fn above(k: i64, v: i64) -> i64
    requires { le_z (pos 1) k ≡ true }
    ensures { result ≡ v -ℤ k *ℤ floored v (nat_abs k) }
{
    let r = folded(v) % k;
    chosen(v < 0, k - 1 - r, r)
}

// The largest multiple of k not above a value, k from 1 to 2^47 - 1.
pub fn band(k: i64, v: i64) -> i64
    ensures { result ≡ band k v }
{
    if in_range(k) & (1 <= k) {
        let inside = in_range(v);
        let w = chosen(inside, v, 0);
        settled(chosen(inside, w - above(k, w), OVER))
    } else {
        OVER
    }
}
