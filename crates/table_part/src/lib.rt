// A table part by its header: its columns, rows and cells.
#![tactic(auto)]

ghost use Rattle.std.specs.Prelude.{◌≡◌};
ghost use Rattle.table_part.specs.TablePart.{cell_count};
ghost use Rattle.table_part.specs.promises.Shape.{shape_of};

use little_endian::{byte, two};

// A table part's columns and rows.
#[derive(Clone, Copy, Debug, PartialEq, Eq)]
pub struct Shape {
    pub columns: usize,
    pub rows: usize,
}

// A table's columns and rows, by its header.
pub fn shape_of(table: &[u8]) -> Shape
    ensures { result ≡ shape_of table.now }
{
    Shape {
        columns: byte(table, 0) as usize,
        rows: two(table, 2) as usize,
    }
}

// How many cells a table has by its header.
pub fn cell_count(table: &[u8]) -> u32
    ensures { result ≡ cell_count table.now }
{
    two(table, 2) as u32 * byte(table, 0) as u32
}
