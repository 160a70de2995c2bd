// Where a reader of a text stands, and where a byte takes it.
ghost use Rattle.std.specs.Prelude.{◌≡◌, ◌+◌, ◌*◌, cond};
ghost use Rattle.csv_reader.specs.Reader as spec;

use csv_text::{LINE_END, NAMES};

// Behind so many bytes of the names; behind the CR of a header of so many columns; in a row of so many columns, of which so many are left:
// before a value, behind its minus sign, or behind digits of it, with its sign and its size so far; behind the CR of a row; nowhere in a text.
// `Wrong` is a state of its own, as in the definition `next_spot`: no byte leads out of it. The sign of `Digits` (whether the value is below zero) is
// part of that state, as in the definition; so `largest`, `with_digit`, `after_digits` and `value_of` take it beside the size.
#[derive(Clone, Copy)]
pub enum Spot {
    Names(usize),
    Header(usize),
    Value(usize, usize),
    Minus(usize, usize),
    Digits(usize, usize, bool, u64),
    Row(usize),
    Wrong,
}

#[tactic(auto, unfolding(crate::specs::Reader::is_digit))]
pub fn is_digit(byte: u8) -> bool
    ensures { result ≡ spec.is_digit byte }
{
    byte.is_ascii_digit()
}

fn after_names(fewest: usize, i: usize, byte: u8) -> Spot
    ensures { result ≡ spec.after_names fewest i byte }
{
    if NAMES.get(i) == Some(&byte) {
        return Spot::Names(i + 1);
    }
    let columns = i / 3 + 1;
    if (byte == LINE_END[0]) & (i % 3 == 2) & (fewest <= columns) {
        return Spot::Header(columns);
    }
    Spot::Wrong
}

fn after_return(columns: usize, byte: u8) -> Spot
    ensures { result ≡ spec.after_return columns byte }
{
    if byte == LINE_END[1] {
        Spot::Value(columns, columns)
    } else {
        Spot::Wrong
    }
}

fn after_separator(columns: usize, left: usize, byte: u8) -> Spot
    ensures { result ≡ spec.after_separator columns left byte }
{
    if byte == b'-' {
        return Spot::Minus(columns, left);
    }
    if is_digit(byte) {
        return Spot::Digits(columns, left, false, (byte - 48) as u64);
    }
    Spot::Wrong
}

fn after_minus(columns: usize, left: usize, byte: u8) -> Spot
    ensures { result ≡ spec.after_minus columns left byte }
{
    if is_digit(byte) & (48 < byte) {
        return Spot::Digits(columns, left, true, (byte - 48) as u64);
    }
    Spot::Wrong
}

// The largest size of a value below zero, and of any other: two constants, one more than the other.
fn largest(negative: bool) -> u64
    ensures { result ≡ spec.largest negative }
{
    if negative {
        140_737_488_355_328
    } else {
        140_737_488_355_327
    }
}

// A size with a digit more; None where the byte is no digit, or none that may follow.
fn with_digit(negative: bool, size: u64, byte: u8) -> Option<u64>
    ensures { result ≡ cond (spec.more_digits negative size byte) (Some (10 * size + spec.digit_of byte)) None }
{
    if !is_digit(byte) {
        return None;
    }
    if size == 0 {
        return None;
    }
    if 14_073_748_835_532 < size {
        return None;
    }
    let more = 10 * size + (byte - 48) as u64;
    if more <= largest(negative) {
        return Some(more);
    }
    None
}

fn after_digits(columns: usize, left: usize, negative: bool, size: u64, byte: u8) -> Spot
    ensures { result ≡ spec.after_digits columns left negative size byte }
{
    if let Some(more) = with_digit(negative, size, byte) {
        return Spot::Digits(columns, left, negative, more);
    }
    if (left == 1) & (byte == LINE_END[0]) {
        return Spot::Row(columns);
    }
    if (1 < left) & (byte == b',') {
        return Spot::Value(columns, left - 1);
    }
    Spot::Wrong
}

// Where a byte takes a reader.
pub fn next(fewest: usize, spot: Spot, byte: u8) -> Spot
    ensures { result ≡ spec.next_spot fewest spot byte }
{
    match spot {
        Spot::Names(i) => after_names(fewest, i, byte),
        Spot::Header(columns) => after_return(columns, byte),
        Spot::Value(columns, left) => after_separator(columns, left, byte),
        Spot::Minus(columns, left) => after_minus(columns, left, byte),
        Spot::Digits(columns, left, negative, size) => {
            after_digits(columns, left, negative, size, byte)
        }
        Spot::Row(columns) => after_return(columns, byte),
        Spot::Wrong => Spot::Wrong,
    }
}
