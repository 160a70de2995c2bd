// Parts of a slice, and tables in one.
ghost use Rattle.std.specs.Prelude.{◌≡◌};
ghost use Rattle.cells.specs.promises.Cells as spec;
ghost use Rattle.cells.specs.promises.Search.{table_within};

// Whether `count` elements from a place on lie within a slice of that length.
pub fn within(from: usize, count: usize, length: usize) -> bool
    ensures { result ≡ spec.within from count length }
{
    if length < from {
        return false;
    }
    count <= length - from
}

// A table in a slice: the place where it begins, and its rows and columns.
#[derive(Clone, Copy, PartialEq, Eq, Debug)]
pub struct Area {
    pub at: usize,
    pub rows: usize,
    pub columns: usize,
}

impl Area {
    // Whether it has at most 256 rows and 8 columns, and lies within a slice of that length.
    pub fn within(self, length: usize) -> bool
        ensures { result ≡ table_within self.at self.rows self.columns length }
    {
        let Area { at, rows, columns } = self;
        if 256 < rows {
            return false;
        }
        if 8 < columns {
            return false;
        }
        within(at, rows * columns, length)
    }
}
