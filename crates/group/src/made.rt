// The rows of the groups, made one after the other in the last slot.
ghost use Rattle.std.specs.Prelude.{◌+◌, ◌≤◌, ◌<◌, length};
ghost use Rattle.chains.specs.promises.Chains.{Onward};
ghost use Rattle.plan.specs.Table.{Each};
ghost use Rattle.cells.specs.promises.Lent.{SameCells, work_held, memory_held};
ghost use Rattle.cells.specs.promises.Work.{cells_in, room};
ghost use Rattle.memory.specs.promises.Stack.{last_slot};
ghost use Rattle.group.specs.promises.Made as made;
ghost use Rattle.group.specs.promises.Members as spec;

use crate::labelling::group_label;
use crate::member::{group_sheets, group_values};
use crate::{Grouping, Led};
use cells::LentCells;
use memory::{LAST_MARKS, LAST_SLOT};

// Puts the rows of all groups in the place of the table, and answers how many there are.
pub fn replace(cells: &mut LentCells, marks: &mut [u64], g: Grouping) -> usize
    requires source { made.Source g (length cells.old.values.now) (length cells.old.labels.now)
        × made.Marks g (length marks.old) }
    requires each { Each (spec.Allowed g.column) (spec.grouped_rows g (cells_in (work_held cells.old))) }
    ensures done { made.Replaced g (memory_held cells.old marks.old) result (memory_held cells.new marks.new) }
    ensures same { SameCells cells.old cells.new }
{
    let count = write_groups(cells, marks, g);
    moves::move_cells(cells, LAST_SLOT, g.table.at, count * g.width);
    moves::move_marks(marks, LAST_MARKS, g.table.marks, count);
    count
}

// Makes the rows of all groups, in the order of their first rows, and answers how many there are.
fn write_groups(cells: &mut LentCells, marks: &mut [u64], g: Grouping) -> usize
    requires source { made.Source g (length cells.old.values.now) (length cells.old.labels.now)
        × made.Marks g (length marks.old) }
    requires each { Each (spec.Allowed g.column) (spec.grouped_rows g (cells_in (work_held cells.old))) }
    ensures done { made.AllMade g (memory_held cells.old marks.old) result (memory_held cells.new marks.new) }
    ensures same { SameCells cells.old cells.new }
{
    let rows = g.table.rows;
    // Lent as a `&mut`: of a field lent as a `&` the proof would know the length alone afterwards.
    let values = &mut *cells.values;
    let chains = chains::find(values, g.table.area(), g.keys);
    let numbers = mark_numbers::find(marks, g.table.marks, rows);
    let mut count = 0;
    let mut to = LAST_SLOT;
    for row in 0..rows {
        if chains.first[row] == row {
            let led = Led {
                next: &chains.next,
                row,
            };
            let sheets = group_sheets(&numbers, led, rows);
            write_group(cells, led, g, sheets, to);
            marks[LAST_MARKS + count] = marks[g.table.marks + row];
            to += g.width;
            count += 1;
        }
    }
    count
}

// Makes the row of the group that a row leads, of so many sheets.
fn write_group(cells: &mut LentCells, led: Led, g: Grouping, sheets: u32, to: usize)
    requires source { made.Source g (length cells.old.values.now) (length cells.old.labels.now) }
    requires each { Each (spec.Allowed g.column) (spec.grouped_rows g (cells_in (work_held cells.old))) }
    requires row_lt_rows { (led.row < g.table.rows) × Onward g.table.rows led.next.now × (last_slot ≤ to) × (to + g.width ≤ room) }
    ensures done { made.GroupWritten g led.entry.next.now led.entry.row sheets to (work_held cells.old) (work_held cells.new) }
    ensures same { SameCells cells.old cells.new }
{
    let values = &mut *cells.values;
    let all = group_values(values, led, g);
    let labels = &mut *cells.labels;
    let label = group_label(labels, led, g, sheets);
    let value = all.value_of(g.aggregate);
    write_row(cells, g, led.row, to, value, label);
}

// Writes a row's keys, and a value and a label after them.
fn write_row(cells: &mut LentCells, g: Grouping, row: usize, to: usize, value: i64, label: u32)
    requires source { made.Source g (length cells.old.values.now) (length cells.old.labels.now) }
    requires row_lt_rows { (row < g.table.rows) × (last_slot ≤ to) × (to + g.width ≤ room) }
    ensures done { made.RowWritten g row to (record { value = value; label = label }) (work_held cells.old)
        (work_held cells.new) }
    ensures same { SameCells cells.old cells.new }
{
    let Grouping { table, keys, .. } = g;
    let from = table.at + row * table.columns;
    let values = &mut *cells.values;
    let labels = &mut *cells.labels;
    let mut place = to;
    for column in 0..table.columns {
        if (keys >> column) % 2 == 1 {
            values[place] = values[from + column];
            labels[place] = labels[from + column];
            place += 1;
        }
    }
    values[place] = value;
    labels[place] = label;
}
