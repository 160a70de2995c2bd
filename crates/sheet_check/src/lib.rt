// The check of a table part's column of sheet numbers.
#![tactic(auto)]

ghost use Rattle.std.specs.Prelude.{◌≡◌, not, ◌&&◌, ◌+◌, ◌*◌, ◌^◌, ◌<◌};
ghost use Rattle.little_endian.specs.Bytes.{number_at};
ghost use Rattle.plan.specs.Table.{clear};
ghost use Rattle.sheet_check.specs.Sheets as spec;
ghost use Rattle.value.specs.Pattern.{signed_of, negative};

use little_endian::{byte, eight, four, two};

// Whether byte 1 of a table part is zero, or names a column whose cells are clear and not negative. The header is read by its bytes, whose types bound
// the numbers; those of `table_part::shape_of` have no bound.
pub fn sheets_fit(table: &[u8]) -> bool
    ensures { result ≡ spec.sheets_fit table.now }
{
    let sheets = byte(table, 1) as usize;
    if sheets == 0 {
        return true;
    }
    let columns = byte(table, 0) as usize;
    if columns < sheets {
        return false;
    }
    let rows = two(table, 2) as usize;
    // In place of `all`, at whose call a proof has to state what the closure asks: the bounds of its sum and product.
    for row in 0..rows {
        if !sheet_fits(table, sheets - 1 + row * columns) {
            return false;
        }
    }
    true
}

// Whether a cell is clear and not negative.
fn sheet_fits(table: &[u8], cell: usize) -> bool
    requires { cell < 2 ^ 32 }
    ensures { result ≡ spec.sheet_fits table.now cell }
{
    let place = 4 + 12 * cell;
    let value = value::pattern::signed(eight(table, place));
    !value::pattern::negative(value) & (four(table, place + 8) == 0)
}
