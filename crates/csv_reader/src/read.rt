// A text, read into a slice that the caller lends.
ghost use Rattle.std.specs.Prelude.{◌≡◌, [], ◌∷◌, ◌+◌, ◌<◌, ◌≤◌, ◌^◌, length};
ghost use Rattle.csv_reader.specs.Reader.{is_wrong, rows_ended, value_of, ended, read_from, read_text};
ghost use Rattle.csv_reader.specs.promises.Reading.{reading_of, values_after, stored, size_fits, pass_end, Passed};

use crate::spot::{Spot, is_digit, next};

// A table that a text has: its columns and its rows.
#[derive(Clone, Copy, Debug, PartialEq, Eq)]
pub struct TextTable {
    pub columns: usize,
    pub rows: usize,
}

// Why a text is not read: the first byte where the bytes can no longer be a text, or their length if they are cut short; or that the slice has no room
// for the table's values.
#[derive(Clone, Copy, Debug, PartialEq, Eq)]
pub enum ReadingError {
    Wrong(usize),
    DoesNotFit,
}

// What a pass over the bytes of a table counts: its columns, rows and values. Nothing compares two of them.
#[derive(Clone, Copy)]
struct Counts {
    columns: usize,
    rows: usize,
    count: usize,
}

#[tactic(auto, unfolding(crate::specs::Reader::is_wrong))]
fn is_wrong(spot: Spot) -> bool
    ensures { result ≡ is_wrong spot }
{
    matches!(spot, Spot::Wrong)
}

// How many rows a byte ends.
#[tactic(auto, unfolding(crate::specs::Reader::rows_ended))]
fn rows_ended(spot: Spot) -> usize
    ensures { (result ≡ rows_ended spot) × (result ≤ 1) }
{
    match spot {
        Spot::Row(_) => 1,
        _ => 0,
    }
}

fn value_of(negative: bool, size: u64) -> i64
    requires { size ≤ 2 ^ 47 }
    ensures { result ≡ value_of negative size }
{
    if negative {
        0 - size as i64
    } else {
        size as i64
    }
}

// Writes a value where the slice has room for it, and answers how many there are with it.
fn put_one(values: &mut [i64], count: usize, value: i64) -> usize
    requires { count < 2 ^ 63 }
    ensures { (result ≡ count + 1) × (values.new ≡ stored count (value ∷ []) values.old) }
{
    // A proof knows no value behind the place that `get_mut` lends, so the place is tested and written by its number.
    if count < values.len() {
        values[count] = value;
    }
    count + 1
}

// Writes the value that a byte ends, if it ends one and the slice has room for it, and answers how many there are with it.
#[tactic(auto, unfolding(crate::specs::Reader::ended))]
fn put_ended(values: &mut [i64], count: usize, spot: Spot, byte: u8) -> usize
    requires { (count < 2 ^ 63) × size_fits spot }
    ensures { (result ≡ count + length (ended spot byte)) × (values.new ≡ stored count (ended spot byte) values.old) }
{
    let Spot::Digits(_, _, negative, size) = spot else {
        return count;
    };
    if is_digit(byte) {
        return count;
    }
    put_one(values, count, value_of(negative, size))
}

// What a pass finds at the end of the bytes, at the place.
fn at_end(spot: Spot, rows: usize, count: usize, place: usize) -> Result<Counts, ReadingError>
    ensures { result ≡ pass_end spot rows count place }
{
    match spot {
        Spot::Value(columns, left) if left == columns => {
            Ok(Counts {
                columns,
                rows,
                count,
            })
        }
        _ => Err(ReadingError::Wrong(place)),
    }
}

// Goes through the bytes once, and writes as many of the values as the slice has room for to its start. Answers what it counts, or the place where the
// bytes fail.
fn go_through(text: &[u8], fewest: usize, values: &mut [i64]) -> Result<Counts, ReadingError>
    ensures { Passed (read_from fewest (Spot.Names 0) [] 0 0 text.now) values.old result values.new }
{
    let mut spot = Spot::Names(0);
    let mut count = 0;
    let mut rows = 0;
    for (i, &byte) in text.iter().enumerate() {
        let then = next(fewest, spot, byte);
        if is_wrong(then) {
            return Err(ReadingError::Wrong(i));
        }
        count = put_ended(values, count, spot, byte);
        rows += rows_ended(spot);
        spot = then;
    }
    at_end(spot, rows, count, text.len())
}

// Reads a text of at least `fewest` columns: writes its values, row by row, to the slice's start. A first pass finds whether the bytes are a
// text and how many values it has, and a second one writes them. Where the bytes are no text, or the slice is too short, it changes nothing.
pub fn read_text(text: &[u8], fewest: usize, values: &mut [i64]) -> Result<TextTable, ReadingError>
    ensures value { result ≡ reading_of (read_text fewest text.now) (length values.old) }
    ensures values_after { values.new ≡ values_after (read_text fewest text.now) values.old }
{
    if 8 < fewest {
        return Err(ReadingError::Wrong(0));
    }
    let found = go_through(text, fewest, &mut values[..0])?;
    if values.len() < found.count {
        return Err(ReadingError::DoesNotFit);
    }
    let _ = go_through(text, fewest, &mut values[..found.count]);
    Ok(TextTable {
        columns: found.columns,
        rows: found.rows,
    })
}
