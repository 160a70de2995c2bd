// Values with noise (#102).
#![tactic(auto)]

ghost use Rattle.std.specs.Prelude.{◌≡◌, ◌&&◌, ◌-◌, ◌^◌, pos, negsuc};
ghost use Rattle.std.specs.Int.Signed.{le_z};
ghost use Rattle.noise_value.specs.Noise.{noisy};

use value::choice::chosen;
use value::range::{OVER, in_range, settled};

// -2^49 and 2^49 - 1: a draw past these leads out of the range from every value, and one within them adds to it without overflow.
const NEAR_LEAST: i64 = -562_949_953_421_312;

const NEAR_MOST: i64 = 562_949_953_421_311;

// A value plus a draw, which may be any number. `arithmetic::plus` tests its second number otherwise: one function for both would ask of its callers that the
// sum fits, which none that other crates call may.
pub fn noisy(value: i64, draw: i64) -> i64
    ensures { result ≡ noisy value draw }
{
    let both = in_range(value) & near(draw);
    settled(chosen(both, value, OVER) + chosen(both, draw, 0))
}

// Whether a draw can lead from a value to a value.
fn near(draw: i64) -> bool
    ensures { result ≡ (le_z (negsuc (2 ^ 49 - 1)) draw && le_z draw (pos (2 ^ 49 - 1))) }
{
    (NEAR_LEAST <= draw) & (draw <= NEAR_MOST)
}
