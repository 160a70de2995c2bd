// The average of a group, from its exact sum and its rows.
#![tactic(auto)]

ghost use Rattle.std.specs.Prelude.{◌≡◌, ◌<◌, pos};
ghost use Rattle.value.specs.Division.{floored};
ghost use Rattle.rounding.specs.Rounding.{distance, rounded, average};

use value::choice::{chosen, folded};
use value::range::{OVER, settled};

// Three functions ask that there are rows: `average`, which alone leads to them, has tested it.

// A sum divided by the rows, rounded down: the quotient of the folded sum, turned back where the sum is below zero.
fn floored(total: i64, rows: u32) -> i64
    requires { 0 < rows }
    ensures { result ≡ floored total rows }
{
    let q = folded(total) / rows as i64;
    chosen(total < 0, -1 - q, q)
}

// How far a sum is above the rows times that quotient: the remainder of the folded sum, which counts down from the rows less one where the sum is below
// zero. `arithmetic::above` has any width for the rows: one function for both would ask of its callers that it is not 0, which none that other crates call
// may.
fn remainder(total: i64, rows: u32) -> i64
    requires { 0 < rows }
    ensures { result ≡ pos (distance total rows (floored total rows)) }
{
    let n = rows as i64;
    let r = folded(total) % n;
    chosen(total < 0, n - 1 - r, r)
}

// The whole number nearest to a sum divided by the rows, the even one of two. Twice the remainder is below 2^33.
fn rounded(total: i64, rows: u32) -> i64
    requires { 0 < rows }
    ensures { result ≡ rounded total rows }
{
    let n = rows as i64;
    let q = floored(total, rows);
    let twice = 2 * remainder(total, rows);
    let stays = (twice < n) | ((twice == n) & (q % 2 == 0));
    q + (1 - stays as i64)
}

// The average of rows with an exact sum. No rows give OVER.
pub fn average(total: i64, rows: u32) -> i64
    ensures { result ≡ average total rows }
{
    if 0 < rows {
        settled(rounded(total, rows))
    } else {
        OVER
    }
}
