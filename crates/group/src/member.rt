// The values and the sheets of a group's members: its first row, and the later rows that the first row leads, each of which is the
// next one of the member before.
ghost use Rattle.std.specs.Prelude.{ℕ, ◌≤◌, ◌<◌, ◌≡◌, length, get_or};
ghost use Rattle.chains.specs.promises.Chains.{Onward};
ghost use Rattle.group.specs.promises.Members as spec;

use crate::{Grouping, Led};
use accumulator::Accumulator;

// The values of the group that a row leads, accumulated.
pub fn group_values(values: &[i64], led: Led, g: Grouping) -> Accumulator
    requires column_inside { spec.ColumnInside g (length values.now) }
    requires row_lt_rows { (led.row < g.table.rows) × Onward g.table.rows led.next.now }
    ensures { spec.GroupValues g values.now led.entry.next.now led.entry.row result }
{
    let Grouping { table, column, .. } = g;
    let Led { next, row } = led;
    let first = table.at + row * table.columns;
    let mut all = Accumulator::single(values[first + column]);
    // The rows of a chain are no counted index.
    let mut other = next[row];
    while other < table.rows {
        let place = table.at + other * table.columns;
        all = all.with_value(values[place + column]);
        other = next[other];
    }
    all
}

// How many different numbers the members of the group that a row leads have.
pub fn group_sheets(numbers: &[usize; 256], led: Led, rows: usize) -> u32
    requires rows_bound { (rows ≤ 256) × (led.row < rows) × Onward rows led.next.now × (length numbers.now ≡ 256) }
    requires by_index { (i : ℕ) → i < rows → get_or numbers.now i 0 < 256 }
    ensures { spec.GroupSheets rows numbers.now led.entry.next.now led.entry.row result }
{
    let Led { next, row } = led;
    let mut seen = [false; 256];
    let mut sheets = 0;
    // The rows of a chain are no counted index.
    let mut other = row;
    while other < rows {
        let number = numbers[other];
        if !seen[number] {
            seen[number] = true;
            sheets += 1;
        }
        other = next[other];
    }
    sheets
}
