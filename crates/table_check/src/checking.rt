// A table part's header, its cells, and the checks of both.
ghost use Rattle.std.specs.Prelude.{◌≡◌, ◌+◌, ◌*◌, ◌^◌, ◌≤◌, ◌<◌, length};
ghost use Rattle.input.specs.Answers.{input_says};
ghost use Rattle.label_words.specs.WellFormed.{well_formed_from};
ghost use Rattle.little_endian.specs.Bytes.{number_at};
ghost use Rattle.table_check.specs.Checks.{check_cells, check_table};
ghost use Rattle.table_part.specs.TablePart.{header_fits};
ghost use Rattle.value.specs.Pattern.{signed_of};
ghost use Rattle.value.specs.Range.{in_range};

use input::InputRefusal;
use little_endian::{eight, four};
use sheet_check::sheets_fit;
use table_part::{cell_count, shape_of};

// Whether a table's header and length are as they should be.
#[tactic(auto, unfolding(table_part::specs::TablePart::header_fits, table_part::specs::promises::Shape::shape_of))]
fn header_fits(table: &[u8]) -> bool
    ensures { result ≡ header_fits table.now }
{
    let len = table.len();
    let shape = shape_of(table);
    (4 <= len)
        & (1..=8).contains(&shape.columns)
        & (shape.rows <= 256)
        & (len == 4 + 12 * cell_count(table) as usize)
}

// Whether a value is in range, of the eight bytes that have it.
fn value_fits(field: &[u8]) -> bool
    ensures { result ≡ in_range (signed_of (number_at field.now 0 8)) }
{
    value::range::in_range(value::pattern::signed(eight(field, 0)))
}

// Whether a label is well-formed, of the four bytes that have it.
fn label_fits(field: &[u8], least: u16) -> bool
    ensures { result ≡ well_formed_from least (number_at field.now 0 4) }
{
    label::well_formed_from(four(field, 0), least)
}

// 14 and 15: the first of so many cells whose value or label is wrong. The part begins at `at`.
fn check_cells(table: &[u8], at: usize, count: usize, least: u16) -> Result<(), InputRefusal>
    requires { (at + length table.now < 2 ^ 64) × (length table.now ≡ 4 + 12 * count) }
    ensures { input_says result ≡ check_cells least table.now at 0 count }
{
    for cell in 0..count {
        let value_place = 4 + 12 * cell;
        let label_place = value_place + 8;
        if !value_fits(&table[value_place..label_place]) {
            return Err(InputRefusal::Value(at + value_place));
        }
        if !label_fits(&table[label_place..label_place + 4], least) {
            return Err(InputRefusal::Label(at + label_place));
        }
    }
    Ok(())
}

// 13, 14, 15 and 20 of a table part that begins at `at`, where no group minimum may be below `least`. A part and its place are two parameters: each
// check is stated over the part's bytes alone, and the place is only added to what it tells.
#[tactic(auto, unfolding(crate::specs::Checks::check_table))]
pub fn check_table(table: &[u8], at: u32, least: u16) -> Result<(), InputRefusal>
    ensures { input_says result ≡ check_table least table.now at }
{
    let place = at as usize;
    if !header_fits(table) {
        return Err(InputRefusal::Table(place));
    }
    check_cells(table, place, cell_count(table) as usize, least)?;
    if !sheets_fit(table) {
        return Err(InputRefusal::Sheets(place));
    }
    Ok(())
}
