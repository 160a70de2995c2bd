// Searches over the labels of a table.
#![tactic(auto)]

ghost use Rattle.std.specs.Prelude.{◌≡◌, ℕ};
ghost use Rattle.cells.specs.promises.Labelled.{column_formed_at};
ghost use Rattle.cells.specs.promises.Search as spec;

use cells::{Area, At, DoesNotFit};

// The first cell, row by row and left to right in the columns of the mask, that is not clear, of the table of so many rows and
// columns from place `at` of the labels on. table_values::first_over is the same walk with another test of a cell: as one function with a
// closure it is no plainer, since each clause would then rest on a search defined by a test, and on F.pre and F.post.
pub fn not_clear(labels: &[u32], table: Area, mask: u32) -> Result<Option<At>, DoesNotFit>
    ensures { (number first : ℕ) → spec.place_says number first result ≡ spec.not_clear_at number first labels.now
        table.at table.rows table.columns mask }
{
    if !table.within(labels.len()) {
        return Err(DoesNotFit);
    }
    let Area { at, rows, columns } = table;
    let mut found = None;
    'rows: for row in 0..rows {
        for column in 0..columns {
            let label = labels[at + row * columns + column];
            if ((mask >> column) % 2 == 1) & (label != 0) {
                found = Some(At { row, column });
                break 'rows;
            }
        }
    }
    Ok(found)
}

// Whether every label of a column is well-formed, of the table of so many rows and columns from place `at` on; false where the labels do
// not have the table, or the table the column.
pub fn column_formed(labels: &[u32], table: Area, column: usize) -> bool
    ensures { result ≡ column_formed_at labels.now table.at table.rows table.columns column }
{
    let Area { at, rows, columns } = table;
    if !table.within(labels.len()) || columns <= column {
        return false;
    }
    for row in 0..rows {
        if !label::well_formed(labels[at + row * columns + column]) {
            return false;
        }
    }
    true
}
