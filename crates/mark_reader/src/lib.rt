// The marks of a table part's rows, read into a slice that the caller lends.
#![tactic(auto)]

ghost use Rattle.std.specs.Prelude.{◌≡◌, cond, ◌*◌, ◌≤◌, ◌<◌, length};
ghost use Rattle.mark_reader.specs.promises.Marks as spec;
ghost use Rattle.plan.specs.Sheets.{mark_of};
ghost use Rattle.table_part.specs.TablePart.{columns_of, sheets_of, cells_from};

use cells::within;
use little_endian::{byte, eight};
use table_part::{Shape, cell_count, shape_of};
use value::pattern::{magnitude, signed};

// Past every value.
const OWN: u64 = 0x8000_0000_0000;

// Writes the marks of the rows of the table with this number from a place on, and answers true. Where byte 1 names no column, the number has more
// than 16 bits, or the part or the slice is too short, it writes nothing.
#[tactic(auto, using(crate::proofs::Marks::within_room), unfolding(crate::specs::promises::Marks::readable, table_part::specs::promises::Shape::shape_of))]
pub fn read_marks(part: &[u8], table: usize, marks: &mut [u64], at: usize) -> bool
    ensures value { result ≡ spec.readable part.now table (length marks.old) at }
    ensures marks_after { marks.new ≡ cond result (spec.marks_after part.now table marks.old at) marks.old }
{
    let Shape { columns, rows } = shape_of(part);
    let fits = (byte(part, 1) as usize <= columns)
        & (table < 65536)
        & (4 + 12 * cell_count(part) as usize <= part.len())
        & within(at, rows, marks.len());
    if !fits {
        return false;
    }
    write_marks(part, table, &mut marks[at..at + rows]);
    true
}

// Writes the marks of the first rows of the table with this number. Bytes 0 and 1 are read once, before the loop.
#[tactic(auto, using(crate::proofs::Marks::one_mark))]
fn write_marks(part: &[u8], table: usize, marks: &mut [u64])
    requires { (table < 65536) × (sheets_of part.now ≤ columns_of part.now) × (length marks.old < 65536) }
    ensures { marks.new ≡ spec.first_marks part.now table (length marks.old) }
{
    let columns = byte(part, 0) as usize;
    let sheets = byte(part, 1) as usize;
    for (row, mark) in marks.iter_mut().enumerate() {
        *mark = mark_of(part, table, sheets, columns, row);
    }
}

// The mark of a row: one of its own, or the value in the column that byte 1 names.
fn mark_of(part: &[u8], table: usize, sheets: usize, columns: usize, row: usize) -> u64
    requires { (table < 65536) × (sheets ≤ columns) × (columns < 256) × (row < 65536) }
    ensures { result ≡ mark_of sheets table row (cells_from part.now (row * columns) columns) }
{
    if sheets == 0 {
        return OWN + 256 * table as u64 + row as u64;
    }
    let cell = row * columns + (sheets - 1);
    magnitude(signed(eight(part, 4 + 12 * cell)))
}
