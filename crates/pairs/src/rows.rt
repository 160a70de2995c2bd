// The rows, made one after the other.
ghost use Rattle.std.specs.Prelude.{◌≡◌, false, ℕ, ◌+◌, ◌-◌, ◌*◌, ◌≤◌, ◌<◌, pos, length, get_or};
ghost use Rattle.value.specs.Equality.{eq_z};
ghost use Rattle.cells.specs.promises.Lent.{work_held, memory_held, SameCells};
ghost use Rattle.cells.specs.promises.Work.{cells_in, room};
ghost use Rattle.cells.specs.promises.Written.{Put};
ghost use Rattle.memory.specs.promises.Stack.{last_slot};
ghost use Rattle.pairs.specs.promises.Pairs as spec;

use crate::{Sides, TooMany};
use cells::LentCells;
use comparison::equal;
use memory::{LAST_MARKS, LAST_SLOT, LiveTable};

// Makes the rows of all left rows, each with the left row's mark, and answers how many there are.
pub fn join_all(cells: &mut LentCells, marks: &mut [u64], sides: Sides) -> Result<usize, TooMany>
    requires fit { spec.SidesFit (length cells.old.values.now) (length cells.old.labels.now) sides.left sides.right }
    requires marks { spec.MarksBelow sides.left (length marks.old) }
    ensures joined { spec.Joined sides.left sides.right (memory_held cells.old marks.old) result (memory_held cells.new marks.new) }
    ensures same { SameCells cells.old cells.new }
{
    let mut made = 0;
    for row in 0..sides.left.table.rows {
        let count = join_row(cells, sides, row, made)?;
        let mark = marks[sides.left.table.marks + row];
        marks[LAST_MARKS + made..LAST_MARKS + count].fill(mark);
        made = count;
    }
    Ok(made)
}

// Makes the rows of one left row after the `made` rows before, and answers how many there are then.
fn join_row(cells: &mut LentCells, sides: Sides, row: usize, made: usize) -> Result<usize, TooMany>
    requires fit { spec.SidesFit (length cells.old.values.now) (length cells.old.labels.now) sides.left sides.right }
    requires row_lt_rows { (row < sides.left.table.rows) × (made ≤ 256) }
    ensures grown { spec.Grown made sides.left sides.right
        (spec.left_rows (cells_in (work_held cells.old)) sides.left sides.right
        (sides.left.table.at + row * sides.left.table.columns))
        (work_held cells.old) result (work_held cells.new) }
    ensures same { SameCells cells.old cells.new }
{
    let Sides { left, right } = sides;
    let LiveTable { rows, columns, .. } = right.table;
    let at = left.table.at + row * left.table.columns;
    let mut count = made;
    let mut other = right.table.at;
    let mut i = 0;
    // The search passes over several rows at once, so the index does not go by one.
    while i < rows {
        let key = cells.values[at + left.key];
        let skipped = unlike(cells, key, other + right.key, columns, rows - i);
        other += skipped * columns;
        i += skipped;
        if i < rows {
            count = join_pair(cells, sides, at, other, count)?;
            other += columns;
            i += 1;
        }
    }
    Ok(count)
}

// How many values, of so many from a place on and `step` apart, come before the first that is `key`. It takes the cells and not their
// values: a slice lent out of a `&mut` in a struct is known by its length alone after the call. The place and the step are no struct,
// since each four values begin at a place of their own, for which it would have to be made anew.
fn unlike(cells: &LentCells, key: i64, place: usize, step: usize, count: usize) -> usize
    requires { (step ≤ 8) × (place + count * step < length cells.now.values.now + step) }
    ensures { (result ≤ count) × ((j : ℕ) → j < result → eq_z key (get_or cells.now.values.now (place + j * step) (pos 0)) ≡ false) }
{
    let passed = unlike_fours(cells.values, key, place, step, count);
    for i in passed..count {
        let is_key = key == cells.values[place + i * step];
        if is_key {
            return i;
        }
    }
    count
}

// So many of these, a multiple of four: how many come before the first four with `key` among them.
fn unlike_fours(values: &[i64], key: i64, place: usize, step: usize, count: usize) -> usize
    requires { (step ≤ 8) × (place + count * step < length values.now + step) }
    ensures { (result ≤ count) × ((j : ℕ) → j < result → eq_z key (get_or values.now (place + j * step) (pos 0)) ≡ false) }
{
    let fours = count / 4;
    for four in 0..fours {
        if among_four(values, key, place + 4 * four * step, step) {
            return 4 * four;
        }
    }
    4 * fours
}

// Whether one of four values, from a place on and `step` apart, is `key`.
fn among_four(values: &[i64], key: i64, at: usize, step: usize) -> bool
    requires { (step ≤ 8) × (at + 3 * step < length values.now) }
    ensures { result ≡ false → (j : ℕ) → j < 4 → eq_z key (get_or values.now (at + j * step) (pos 0)) ≡ false }
{
    let first = key == values[at];
    let second = key == values[at + step];
    let third = key == values[at + 2 * step];
    let fourth = key == values[at + 3 * step];
    first | second | third | fourth
}

// Makes the row of the left row at `at` and the right row at `other`, if their keys match, after the `made` rows before, and answers
// how many there are then.
fn join_pair(
    cells: &mut LentCells,
    sides: Sides,
    at: usize,
    other: usize,
    made: usize,
) -> Result<usize, TooMany>
    requires fit { spec.SidesFit (length cells.old.values.now) (length cells.old.labels.now) sides.left sides.right }
    requires columns_bound { (at + sides.left.table.columns ≤ last_slot) × (other + sides.right.table.columns ≤ last_slot) × (made ≤ 256) }
    ensures grown { spec.Grown made sides.left sides.right
        (spec.pair_rows (cells_in (work_held cells.old)) sides.left sides.right at other)
        (work_held cells.old) result (work_held cells.new) }
    ensures same { SameCells cells.old cells.new }
{
    if !equal(
        cells.values[at + sides.left.key],
        cells.values[other + sides.right.key],
    ) {
        return Ok(made);
    }
    if made == 256 {
        return Err(TooMany);
    }
    write_row(cells, sides, at, other, LAST_SLOT + made * sides.width());
    Ok(made + 1)
}

// Writes the row of the left row at `at` and the right row at `other`: the left cells, then the right cells without the key.
fn write_row(cells: &mut LentCells, sides: Sides, at: usize, other: usize, to: usize)
    requires fit { spec.SidesFit (length cells.old.values.now) (length cells.old.labels.now) sides.left sides.right }
    requires columns_bound { (at + sides.left.table.columns ≤ to) × (other + sides.right.table.columns ≤ to)
        × (to + spec.width sides.left sides.right ≤ room) }
    ensures put { Put to (spec.row_made (cells_in (work_held cells.old)) sides.left sides.right at other).cells
        (work_held cells.old) (work_held cells.new) }
    ensures same { SameCells cells.old cells.new }
{
    let Sides { left, right } = sides;
    let key = right.key;
    moves::move_cells(cells, at, to, left.table.columns);
    moves::move_cells(cells, other, to + left.table.columns, key);
    moves::move_cells(
        cells,
        other + key + 1,
        to + left.table.columns + key,
        right.table.columns - key - 1,
    );
}
