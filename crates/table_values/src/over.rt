// The first OVER cell of a table.
ghost use Rattle.std.specs.Prelude.{◌≡◌, ℕ};
ghost use Rattle.cells.specs.promises.Search.{place_says};
ghost use Rattle.table_values.specs.promises.Over as spec;

use cells::{Area, At, DoesNotFit};

// The first cell of a table, row by row and left to right, whose value is out of range.
pub fn first_over(values: &[i64], table: Area) -> Result<Option<At>, DoesNotFit>
    ensures { (first : ℕ) → place_says 36 first result ≡ spec.first_over_at first values.now
        table.at table.rows table.columns }
{
    if !table.within(values.len()) {
        return Err(DoesNotFit);
    }
    let Area { at, rows, columns } = table;
    let mut found = None;
    'rows: for row in 0..rows {
        for column in 0..columns {
            let fits = value::range::in_range(values[at + row * columns + column]);
            if !fits {
                found = Some(At { row, column });
                break 'rows;
            }
        }
    }
    Ok(found)
}
