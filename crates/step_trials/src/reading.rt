// The words of a text, and the numbers that they are.
ghost use Rattle.std.specs.Prelude.{◌≡◌, ◌<◌, ◌^◌, Some, IfSome};
ghost use Rattle.step_trials.specs.Words.{count_of, part_of, digit_of, with_digit, number_of, short_of, bits_of, first_of};
ghost use Rattle.step_trials.specs.Words as spec;

// Numbers are below it.
const BOUND: u64 = 0x1_0000_0000_0000;

// How often a byte stands in a text.
pub fn count(text: &[u8], byte: u8) -> usize
    ensures { result ≡ count_of byte text.now }
{
    text.iter().filter(|other| **other == byte).count()
}

// A part of a text that a byte parts; past the last, nothing.
pub fn part(text: &[u8], byte: u8, index: usize) -> &[u8]
    ensures { result.now ≡ part_of byte index text.now }
{
    text.split(|other| *other == byte).nth(index).unwrap_or(&[])
}

fn digit(byte: u8) -> Option<u8>
    ensures { result ≡ digit_of byte }
{
    match byte {
        b'0'..=b'9' => Some(byte - 48),
        b'a'..=b'f' => Some(byte - 87),
        _ => None,
    }
}

// A number with one digit more.
#[tactic(auto, unfolding(crate::specs::Words::with_digit))]
fn with_digit(base: u8, number: u64, byte: u8) -> Option<u64>
    requires { number < 2 ^ 48 }
    ensures value { result ≡ with_digit base (Some number) byte }
    ensures fits { IfSome result (λ more. more < 2 ^ 48) }
{
    let digit = digit(byte)?;
    if base <= digit {
        return None;
    }
    let more = number * base as u64 + digit as u64;
    (more < BOUND).then_some(more)
}

// The number that a word is.
#[tactic(auto, using(crate::proofs::Words::digits_next, crate::proofs::Words::digits_none, crate::proofs::Words::nothing_left), unfolding(crate::specs::Words::number_of, crate::specs::Words::with_digits))]
pub fn number(base: u8, word: &[u8]) -> Option<u64>
    ensures { result ≡ number_of base word.now }
{
    if word.is_empty() {
        return None;
    }
    let mut number = 0;
    for &byte in word {
        number = with_digit(base, number, byte)?;
    }
    Some(number)
}

// The number of 32 bits that a word is.
#[tactic(auto, unfolding(crate::specs::Words::short_of))]
pub fn short(base: u8, word: &[u8]) -> Option<u32>
    ensures { result ≡ short_of base word.now }
{
    u32::try_from(number(base, word)?).ok()
}

// The 64 bits of the value that a word is.
#[tactic(auto, unfolding(crate::specs::Words::bits_of))]
pub fn bits(word: &[u8]) -> Option<u64>
    ensures { result ≡ bits_of word.now }
{
    if word == b"OVER".as_slice() {
        return Some(0x8000_0000_0000);
    }
    match word.strip_prefix(b"-") {
        Some(digits) => negated(number(10, digits)),
        None => number(10, word),
    }
}

// The bits of a number below zero.
#[tactic(auto, unfolding(crate::specs::Words::negated))]
fn negated(number: Option<u64>) -> Option<u64>
    ensures { result ≡ spec.negated number }
{
    let number = number?;
    if number == 0 {
        return None;
    }
    Some(0xffff_ffff_ffff_ffff - (number - 1))
}

// Whether a word is as a shape's word says.
#[tactic(auto, unfolding(crate::specs::Words::word_fits))]
fn word_fits(word: &[u8], shape: &[u8]) -> bool
    ensures { result ≡ spec.word_fits word.now shape.now }
{
    match shape {
        b"#" => short(10, word).is_some(),
        b"*" => true,
        _ => word == shape,
    }
}

// Whether a text has as many words as a shape, and each fits.
#[tactic(auto, unfolding(crate::specs::Words::shaped))]
fn shaped(text: &[u8], shape: &[u8]) -> bool
    ensures { result ≡ spec.shaped text.now shape.now }
{
    let shapes = shape.split(|byte| *byte == b' ');
    let mut words = text.split(|byte| *byte == b' ').zip(shapes);
    count(text, b' ') == count(shape, b' ') && words.all(|(word, shape)| word_fits(word, shape))
}

// What a table has beside the first shape that a text has.
#[tactic(auto, unfolding(crate::specs::Words::first_of))]
pub fn first<T: Copy>(text: &[u8], table: &[(&str, T)]) -> Option<T>
    ensures { result ≡ first_of text.now table.now }
{
    let entry = table.iter().find(|entry| shaped(text, entry.0.as_bytes()));
    entry.map(|entry| entry.1)
}
