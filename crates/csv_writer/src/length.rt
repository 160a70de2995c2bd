// The length of a text.
ghost use Rattle.std.specs.Prelude.{◌≡◌, ◌+◌, ◌^◌, ◌≤◌, ◌<◌, length};
ghost use Rattle.csv_text.specs.Text.{digits, decimal};
ghost use Rattle.csv_writer.specs.promises.Cells.{separator, next_left};
ghost use Rattle.csv_writer.specs.promises.Writing.{text_length};

use cells::Area;
use value::pattern::{magnitude, negative};

// How many digits a number has, where these are one to four more than `below`; `power` is 10^below.
fn count_from(n: u64, below: usize, power: u64) -> usize
    requires { (below ≤ 16) × (power ≡ 10 ^ below) × (below < length (digits n)) × (length (digits n) ≤ below + 4) }
    ensures { result ≡ length (digits n) }
{
    if n < 100 * power {
        if n < 10 * power { below + 1 } else { below + 2 }
    } else {
        if n < 1000 * power {
            below + 3
        } else {
            below + 4
        }
    }
}

// How many digits a number has, by the powers of ten, four at a time.
pub fn digit_count(n: u64) -> usize
    requires { n ≤ 2 ^ 63 }
    ensures { result ≡ length (digits n) }
{
    if n < 10 {
        return 1;
    }
    if n < 10_000 {
        return count_from(n, 0, 1);
    }
    if n < 100_000_000 {
        return count_from(n, 4, 10_000);
    }
    if n < 1_000_000_000_000 {
        return count_from(n, 8, 100_000_000);
    }
    if n < 10_000_000_000_000_000 {
        return count_from(n, 12, 1_000_000_000_000);
    }
    count_from(n, 16, 10_000_000_000_000_000)
}

// How many bytes a value has.
pub fn value_length(v: i64) -> usize
    ensures { (result ≡ length (decimal v)) × (result ≤ 20) }
{
    let count = digit_count(magnitude(v));
    if negative(v) { count + 1 } else { count }
}

// How many bytes stand behind a value where `left` of its row are left with it, and how many are left after it.
pub fn separator_length(left: usize) -> usize
    ensures { (result ≡ length (separator left)) × (result ≤ 2) }
{
    if left == 1 { 2 } else { 1 }
}

pub fn next_left(columns: usize, left: usize) -> usize
    requires { 1 ≤ left }
    ensures { result ≡ next_left columns left }
{
    if left == 1 { columns } else { left - 1 }
}

// The length of the text of the table of so many rows and columns at the start of the values; None where they have no such table.
pub fn text_length(values: &[i64], rows: usize, columns: usize) -> Option<usize>
    ensures { result ≡ text_length values.now rows columns }
{
    let table = Area {
        at: 0,
        rows,
        columns,
    };
    if columns == 0 || !table.within(values.len()) {
        return None;
    }
    let mut bytes = 3 * columns + 1;
    // What is left of a row is counted as `put_rows` counts it, so that one definition serves the length and the text.
    let mut left = columns;
    for &value in &values[..rows * columns] {
        bytes += value_length(value) + separator_length(left);
        left = next_left(columns, left);
    }
    Some(bytes)
}
