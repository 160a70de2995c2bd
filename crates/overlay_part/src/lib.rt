// A part of an overlay: whether it fits its table, and the check of its labels.
#![tactic(auto)]

ghost use Rattle.std.specs.Prelude.{◌≡◌, ◌+◌, ◌^◌, ◌<◌};
ghost use Rattle.input.specs.Answers.{input_says};
ghost use Rattle.overlay_part.specs.Labels as spec;
ghost use Rattle.overlay_part.specs.OverlayPart.{part_fits};

use input::InputRefusal;
use little_endian::{byte, four, two};
use table_part::cell_count;

// Whether the header of an overlay's part is the table's, and it has a label for each cell.
#[tactic(auto, unfolding(crate::specs::OverlayPart::part_fits))]
pub fn part_fits(table: &[u8], part: &[u8]) -> bool
    ensures { result ≡ part_fits table.now part.now }
{
    (byte(part, 0) == byte(table, 0))
        & (byte(part, 1) == byte(table, 1))
        & (two(part, 2) == two(table, 2))
        & (part.len() == 4 + 4 * cell_count(table) as usize)
}

// 22: the first label of a part that is ill-formed, or not zero in the column of sheet numbers. The part begins at `at`. The header is read by its
// bytes, whose types bound the numbers; those of `table_part::shape_of` have no bound.
#[tactic(auto, using(crate::proofs::RowsLeft::after_row))]
pub fn check_labels(part: &[u8], at: u32) -> Result<(), InputRefusal>
    ensures { input_says result ≡ spec.check_labels part.now at }
{
    let rows = two(part, 2) as usize;
    let columns = byte(part, 0) as usize;
    for row in 0..rows {
        check_row(part, at as usize, row * columns, columns)?;
    }
    Ok(())
}

// The same of the row of so many columns that begins with a cell.
#[tactic(auto, using(crate::proofs::RowsLeft::after_label))]
fn check_row(part: &[u8], at: usize, first: usize, columns: usize) -> Result<(), InputRefusal>
    requires { (at < 2 ^ 32) × (first < 2 ^ 32) × (columns < 256) }
    ensures { input_says result ≡ spec.check_row part.now at first 0 columns }
{
    let sheets = byte(part, 1) as usize;
    for column in 0..columns {
        let place = 4 + 4 * (first + column);
        if !label_fits(sheets, column, four(part, place)) {
            return Err(InputRefusal::OverlayLabel(at + place));
        }
    }
    Ok(())
}

// Whether a label may stand in a column.
fn label_fits(sheets: usize, column: usize, label: u32) -> bool
    requires { column < 256 }
    ensures { result ≡ spec.label_fits sheets column label }
{
    label::well_formed(label) & ((label == 0) | (sheets != column + 1))
}
