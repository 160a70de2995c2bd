// The new table, made in the last slot and moved from there.
ghost use Rattle.std.specs.Prelude.{◌≡◌, true, false, ◌+◌, ◌*◌, ◌≤◌, ◌<◌, length};
ghost use Rattle.cells.specs.promises.Cells.{row_from};
ghost use Rattle.cells.specs.promises.Lent.{work_held, SameCells};
ghost use Rattle.cells.specs.promises.Work.{cells_in};
ghost use Rattle.cells.specs.promises.Written.{Put};
ghost use Rattle.memory.specs.promises.Stack.{last_slot, Inside, RowsAt};
ghost use Rattle.plan.specs.Table.{flat};
ghost use Rattle.extension.specs.promises.Extending as spec;
ghost use Rattle.extension.specs.promises.Rows.{extended, made_cell};

use crate::new_cell::NewCell;
use cells::LentCells;
use memory::{LAST_SLOT, LiveTable, ROOM};

// Appends to each row of a table the new cell made of one of its columns, and answers true. Where the table does not stand below the last slot, does not
// have the column or has no room for one more, or where the slices are too short, it changes nothing and answers false.
pub fn extend<N: NewCell>(cells: &mut LentCells, top: LiveTable, column: usize, new: &N) -> bool
    ensures value { result ≡ spec.extends top column (length cells.old.values.now) (length cells.old.labels.now) }
    ensures made { result ≡ true → RowsAt top.at
        (spec.rows_made (N.new_value new.now) (N.new_label new.now) top column (work_held cells.old))
        (work_held cells.old) (work_held cells.new) }
    ensures unmade { result ≡ false → work_held cells.new ≡ work_held cells.old }
    ensures same { SameCells cells.old cells.new }
{
    if !extends(top, column, cells.values.len(), cells.labels.len()) {
        return false;
    }
    make_rows(cells, top, column, new);
    moves::move_cells(cells, LAST_SLOT, top.at, top.rows * (top.columns + 1));
    true
}

// Whether a table in slices of these lengths can get a column made of one of its columns.
fn extends(top: LiveTable, column: usize, values: usize, labels: usize) -> bool
    ensures { result ≡ spec.extends top column values labels }
{
    top.area().within(LAST_SLOT)
        & (column < top.columns)
        & (top.columns < 8)
        & (ROOM <= values)
        & (ROOM <= labels)
}

// Makes the rows of all rows of a table.
fn make_rows<N: NewCell>(cells: &mut LentCells, top: LiveTable, column: usize, new: &N)
    requires inside { Inside top (length cells.old.values.now) (length cells.old.labels.now) × (top.columns + 1 ≤ 8) }
    requires has_column { column < top.columns }
    ensures done { Put last_slot (flat (spec.rows_made (N.new_value new.now) (N.new_label new.now) top column (work_held cells.old)))
        (work_held cells.old) (work_held cells.new) }
    ensures same { SameCells cells.old cells.new }
{
    for row in 0..top.rows {
        make_row(cells, top, row, column, new);
    }
}

// Makes a row: the cells of the row of that number, and the new cell.
fn make_row<N: NewCell>(cells: &mut LentCells, top: LiveTable, row: usize, column: usize, new: &N)
    requires inside { Inside top (length cells.old.values.now) (length cells.old.labels.now) × (top.columns + 1 ≤ 8) }
    requires has_row { (column < top.columns) × (row < top.rows) }
    ensures done { Put (last_slot + row * (top.columns + 1))
        (extended (made_cell (N.new_value new.now) (N.new_label new.now) column) row
        (row_from top.columns (cells_in (work_held cells.old)) (top.at + row * top.columns))).cells
        (work_held cells.old) (work_held cells.new) }
    ensures same { SameCells cells.old cells.new }
{
    let from = top.at + row * top.columns;
    let to = LAST_SLOT + row * (top.columns + 1);
    let (value, label) = new_cell(cells, top, row, column, new);
    moves::move_cells(cells, from, to, top.columns);
    cells.values[to + top.columns] = value;
    cells.labels[to + top.columns] = label;
}

// The value and the label of the new cell of the row of that number. A function of its own, which is lent the cells as a `&`: after a
// `&` of the slice in the field alone, make_row would know its length but not its values.
fn new_cell<N: NewCell>(
    cells: &LentCells,
    top: LiveTable,
    row: usize,
    column: usize,
    new: &N,
) -> (i64, u32)
    requires inside { Inside top (length cells.now.values.now) (length cells.now.labels.now) }
    requires has_row { (column < top.columns) × (row < top.rows) }
    ensures { made_cell (N.new_value new.now) (N.new_label new.now) column row
        (row_from top.columns (cells_in (work_held cells.now)) (top.at + row * top.columns)) ≡ record { value = result.0; label = result.1 } }
{
    let from = top.at + row * top.columns;
    let first = cells.values[from + column];
    let value = new.value(row, first, &cells.values[from..from + top.columns]);
    let label = new.label(cells.labels[from + column]);
    (value, label)
}
