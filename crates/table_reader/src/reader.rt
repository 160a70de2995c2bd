// The cells of a table, read into slices that the caller lends.
ghost use Rattle.std.specs.Prelude.{◌≡◌, ◌+◌, ◌*◌, ◌≤◌, length};
ghost use Rattle.cells.specs.promises.Lent.{SameCells};
ghost use Rattle.little_endian.specs.Bytes.{number_at};
ghost use Rattle.table_reader.specs.promises.Reading.{cell_values, cell_labels, overwritten, Read};
ghost use Rattle.value.specs.Pattern.{signed_of};

use cells::{LentCells, within};
use little_endian::{eight, four};
use table_part::{Shape, cell_count, shape_of};

// The value at a place. Of a part with just its bytes no place is tested again.
fn value_at(table: &[u8], place: usize) -> i64
    requires { place + 8 ≤ length table.now }
    ensures { result ≡ signed_of (number_at table.now place 8) }
{
    let field = &table[place..place + 8];
    value::pattern::signed(eight(field, 0))
}

// The label at a place.
fn label_at(table: &[u8], place: usize) -> u32
    requires { place + 4 ≤ length table.now }
    ensures { result ≡ number_at table.now place 4 }
{
    let field = &table[place..place + 4];
    four(field, 0)
}

// Writes the values and the labels of the first `count` cells, each from a place on. By the index, since after a `zip` of two `iter_mut` a proof
// knows no element of either slice.
fn copy_cells(table: &[u8], values: &mut [i64], labels: &mut [u32], at: usize, count: usize)
    requires { (4 + 12 * count ≤ length table.now) × (at + count ≤ length values.old) × (at + count ≤ length labels.old) }
    ensures values_after { values.new ≡ overwritten values.old at (cell_values table.now count) }
    ensures labels_after { labels.new ≡ overwritten labels.old at (cell_labels table.now count) }
{
    for cell in 0..count {
        let place = 4 + 12 * cell;
        let to = at + cell;
        values[to] = value_at(table, place);
        labels[to] = label_at(table, place + 8);
    }
}

// Writes a table's cells from a place on, the value of cell i to `at + i` of the values and its label to `at + i` of the labels,
// and answers its shape. Where the part or a slice is too short, it writes nothing.
pub fn read_cells(table: &[u8], cells: &mut LentCells, at: usize) -> Option<Shape>
    ensures done { Read table.now cells.old.values.now cells.old.labels.now at result
        cells.new.values.now cells.new.labels.now }
    ensures same { SameCells cells.old cells.new }
{
    let count = cell_count(table) as usize;
    let fits = (4 + 12 * count <= table.len())
        & within(at, count, cells.values.len())
        & within(at, count, cells.labels.len());
    if !fits {
        return None;
    }
    copy_cells(table, cells.values, cells.labels, at, count);
    Some(shape_of(table))
}
