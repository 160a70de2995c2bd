// Moves of cells and of marks in work memory.
#![tactic(auto)]

ghost use Rattle.std.specs.Prelude.{◌≡◌, true, cond, length};
ghost use Rattle.cells.specs.promises.Cells as spec;
ghost use Rattle.cells.specs.promises.Lent.{SameCells};

use cells::{LentCells, within};

// Copies `count` cells to a place not after theirs, or wholly past them, and answers true. For any other place, or where the cells or the
// place are not within both slices, it changes nothing and answers false.
pub fn move_cells(cells: &mut LentCells, from: usize, to: usize, count: usize) -> bool
    ensures value { result ≡ spec.moves_within cells.old.values.now cells.old.labels.now from to count }
    ensures values_after { cells.new.values.now ≡ cond result (spec.moved from to count cells.old.values.now) cells.old.values.now }
    ensures labels_after { cells.new.labels.now ≡ cond result (spec.moved from to count cells.old.labels.now) cells.old.labels.now }
    ensures same { SameCells cells.old cells.new }
{
    if !can_move(from, to, count, cells.values.len()) {
        return false;
    }
    if !can_move(from, to, count, cells.labels.len()) {
        return false;
    }
    move_items(cells.values, from, to, count);
    move_items(cells.labels, from, to, count);
    true
}

// The same of marks.
pub fn move_marks(marks: &mut [u64], from: usize, to: usize, count: usize) -> bool
    ensures value { result ≡ spec.can_move from to count (length marks.old) }
    ensures marks_after { marks.new ≡ cond result (spec.moved from to count marks.old) marks.old }
{
    if !can_move(from, to, count, marks.len()) {
        return false;
    }
    move_items(marks, from, to, count);
    true
}

// Copies the elements of any slice so, first to last, unless they are there already, as the rows that a FILTER keeps are before the first that it drops.
fn move_items<T: Copy>(items: &mut [T], from: usize, to: usize, count: usize)
    requires { spec.can_move from to count (length items.old) ≡ true }
    ensures { items.new ≡ spec.moved from to count items.old }
{
    if from == to {
        return;
    }
    for i in 0..count {
        items[to + i] = items[from + i];
    }
}

// Whether `count` elements of a slice of that length can be copied so.
fn can_move(from: usize, to: usize, count: usize, length: usize) -> bool
    ensures { result ≡ spec.can_move from to count length }
{
    if from < to {
        count <= to - from && within(to, count, length)
    } else {
        within(from, count, length)
    }
}
