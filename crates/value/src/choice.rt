// Choices by arithmetic on 0 and 1. A value may be locked, and then the time of a run must not tell it: nothing here branches, and callers choose with
// these in place of an `if`. The compiler makes a conditional move of each.
ghost use Rattle.std.specs.Prelude.{◌≡◌, cond};
ghost use Rattle.value.specs.Division.{folded};

// The first of two numbers, or the second.
pub fn chosen(first: bool, a: i64, b: i64) -> i64
    ensures { result ≡ cond first a b }
{
    let one = first as i64;
    a * one + b * (1 - one)
}

// A number, or -1 less the number where it is below zero. What divides does so with this one: before a 64-bit division of any other number the compiler puts
// a test whether both numbers are short, a branch on the value.
pub fn folded(v: i64) -> i64
    ensures { result ≡ folded v }
{
    chosen(v < 0, -1 - v, v)
}
