// A number as 64 bits, and as a sign and a magnitude.
ghost use Rattle.std.specs.Prelude.{◌≡◌};
ghost use Rattle.value.specs.Pattern.{signed_of, negative, magnitude_of};

// The number that 64 bits stand for in two's complement: without a branch, since the value may be locked.
#[tactic(auto, unfolding(crate::specs::Pattern::signed_of))]
pub fn signed(bits: u64) -> i64
    ensures { result ≡ signed_of bits }
{
    bits.cast_signed()
}

// Whether a number is below zero.
pub fn negative(v: i64) -> bool
    ensures { result ≡ negative v }
{
    v < 0
}

// A number without its sign.
#[tactic(auto, unfolding(crate::specs::Pattern::magnitude_of))]
pub fn magnitude(v: i64) -> u64
    ensures { result ≡ magnitude_of v }
{
    v.unsigned_abs()
}
