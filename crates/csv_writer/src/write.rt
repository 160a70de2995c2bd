// A text, written into a slice that the caller lends.
ghost use Rattle.std.specs.Prelude.{◌≡◌, ◌+◌, ◌*◌, ◌≤◌, ◌<◌, length, take};
ghost use Rattle.cells.specs.promises.Written.{Written};
ghost use Rattle.csv_text.specs.Text.{digits, decimal, header, line_end};
ghost use Rattle.csv_writer.specs.promises.Cells.{pair_of, separator, spelled};
ghost use Rattle.csv_writer.specs.promises.Writing.{writing_of, text_after};

use crate::length::{digit_count, next_left, text_length};
use csv_text::{LINE_END, NAMES};
use value::pattern::{magnitude, negative};

// The two digits of each number below 100, one pair after the other.
static PAIRS: [u8; 200] =
    *b"00010203040506070809101112131415161718192021222324252627282930313233343536373839404142434445464748495051525354555657585960616263646566676869707172737475767778798081828384858687888990919293949596979899";

// Writes the two digits of a number below 100 from a place on.
fn put_pair(text: &mut [u8], at: usize, pair: usize)
    requires { (pair < 100) × (at + 2 ≤ length text.old) }
    ensures { Written text.old at (pair_of pair) text.new }
{
    let tens = PAIRS[2 * pair];
    let units = PAIRS[2 * pair + 1];
    text[at] = tens;
    text[at + 1] = units;
}

// Writes the digits of a number from a place on, the last two first. How many are left ends the loop, so that no index is counted.
fn put_digits(text: &mut [u8], at: usize, n: u64, count: usize)
    requires { (count ≡ length (digits n)) × (at + count ≤ length text.old) }
    ensures { Written text.old at (digits n) text.new }
{
    let mut left = count;
    let mut rest = n;
    while rest >= 100 {
        left -= 2;
        put_pair(text, at + left, (rest % 100) as usize);
        rest /= 100;
    }
    if rest >= 10 {
        put_pair(text, at, rest as usize);
    } else {
        text[at] = 48 + rest as u8;
    }
}

// Writes a value from a place on, and answers where it ends.
fn put_value(text: &mut [u8], at: usize, v: i64) -> usize
    requires { at + length (decimal v) ≤ length text.old }
    ensures { (result ≡ at + length (decimal v)) × Written text.old at (decimal v) text.new }
{
    let size = magnitude(v);
    let count = digit_count(size);
    if negative(v) {
        text[at] = b'-';
        put_digits(text, at + 1, size, count);
        return at + 1 + count;
    }
    put_digits(text, at, size, count);
    at + count
}

// Writes the end of a line from a place on, and answers where it ends.
fn put_line_end(text: &mut [u8], at: usize) -> usize
    requires { at + 2 ≤ length text.old }
    ensures { (result ≡ at + 2) × Written text.old at line_end text.new }
{
    let [first, second] = LINE_END;
    text[at] = first;
    text[at + 1] = second;
    at + 2
}

// Writes what ends a value where `left` of its row are left with it, and answers where that ends.
fn put_separator(text: &mut [u8], at: usize, left: usize) -> usize
    requires { at + length (separator left) ≤ length text.old }
    ensures { (result ≡ at + length (separator left)) × Written text.old at (separator left) text.new }
{
    if left == 1 {
        return put_line_end(text, at);
    }
    text[at] = b',';
    at + 1
}

// Writes the header at the start, and answers where it ends. By a loop, and the end of a line byte by byte: what `copy_from_slice` writes the compiler
// keeps in memory even where nobody reads it, and a program that prints lines alone would need 35,097 bytes of stack more.
fn put_header(text: &mut [u8], columns: usize) -> usize
    requires { (1 ≤ columns) × (columns ≤ 8) × (3 * columns + 1 ≤ length text.old) }
    ensures { (result ≡ 3 * columns + 1) × Written text.old 0 (header columns) text.new }
{
    let count = 3 * columns - 1;
    for i in 0..count {
        text[i] = NAMES[i];
    }
    put_line_end(text, count)
}

// Writes values from a place on, in rows of so many columns.
fn put_rows(text: &mut [u8], at: usize, values: &[i64], columns: usize)
    requires { (1 ≤ columns) × (at + length (spelled columns columns values.now) ≤ length text.old) }
    ensures { Written text.old at (spelled columns columns values.now) text.new }
{
    let mut to = at;
    let mut left = columns;
    for &value in values {
        to = put_value(text, to, value);
        to = put_separator(text, to, left);
        left = next_left(columns, left);
    }
}

// Why a text is not written: the slice is shorter than the text, or the values have no such table.
#[derive(Clone, Copy, Debug, PartialEq, Eq)]
pub enum WritingError {
    TooShort,
    NoTable,
}

// Writes the text of the table of so many rows and columns at the start of the values to the start of a slice, and answers its length. Where the slice is
// shorter than the text, or the values have no such table, it changes nothing.
pub fn write_text(
    values: &[i64],
    rows: usize,
    columns: usize,
    text: &mut [u8],
) -> Result<usize, WritingError>
    ensures value { result ≡ writing_of values.now rows columns text.old }
    ensures text_after { text.new ≡ text_after values.now rows columns text.old }
{
    let needed = text_length(values, rows, columns).ok_or(WritingError::NoTable)?;
    if text.len() < needed {
        return Err(WritingError::TooShort);
    }
    let at = put_header(text, columns);
    put_rows(text, at, &values[..rows * columns], columns);
    Ok(needed)
}
