// The rows of a join, made in the last slot of work memory, above the two tables.
#![tactic(auto)]

ghost use Rattle.std.specs.Prelude.{◌≡◌, ◌≤◌, ◌<◌};
ghost use Rattle.cells.specs.promises.Lent.{memory_held, SameCells};
ghost use Rattle.memory.specs.declared.Refusal.TheVariants as refusals;
ghost use Rattle.pairs.specs.promises.Pairs as spec;

mod rows;

use cells::LentCells;
use memory::{LAST_MARKS, LAST_SLOT, LiveTable, MARK_ROOM, ROOM, Refusal};

// A table of the join, and its key column.
#[derive(Clone, Copy)]
pub struct Side {
    pub table: LiveTable,
    pub key: usize,
}

// The two tables of the join.
#[derive(Clone, Copy)]
pub struct Sides {
    pub left: Side,
    pub right: Side,
}

// More than 256 rows.
#[derive(Clone, Copy, PartialEq, Eq, Debug)]
pub struct TooMany;

impl From<TooMany> for Refusal {
    ghost from_gives = { λ wrong refusal. refusal ≡ refusals.TooMany };

    fn from(_wrong: TooMany) -> Refusal {
        Refusal::TooMany
    }
}

// Makes the rows of all left rows, each with the left row's mark, and answers how many there are. Where the slices are short, a table or
// the left rows' marks do not lie below the last slot, a table does not have its key, or the rows would have more than 8 columns, it
// changes nothing and answers 0.
pub fn join_rows(cells: &mut LentCells, marks: &mut [u64], sides: Sides) -> Result<usize, TooMany>
    ensures joined { spec.RowsJoined sides.left sides.right (memory_held cells.old marks.old) result (memory_held cells.new marks.new) }
    ensures same { SameCells cells.old cells.new }
{
    if !sides.fit(cells.values.len(), cells.labels.len()) {
        return Ok(0);
    }
    if !sides.left.marks_fit(marks.len()) {
        return Ok(0);
    }
    rows::join_all(cells, marks, sides)
}

impl Sides {
    // Whether the tables lie below the last slot, and make rows of at most 8 columns, in slices of these lengths.
    fn fit(self, values: usize, labels: usize) -> bool
        ensures { result ≡ spec.sides_fit values labels self.left self.right }
    {
        let Sides { left, right } = self;
        if !(left.fits() & right.fits()) {
            return false;
        }
        (left.table.columns + right.table.columns <= 9) & (ROOM <= values) & (ROOM <= labels)
    }

    // The columns of a row made.
    fn width(self) -> usize
        requires { (0 < self.right.table.columns) × (spec.width self.left self.right ≤ 8) }
        ensures { result ≡ spec.width self.left self.right }
    {
        self.left.table.columns + (self.right.table.columns - 1)
    }
}

impl Side {
    // Whether the table lies below the last slot, and has its key.
    fn fits(self) -> bool
        ensures { result ≡ spec.side_fits self }
    {
        self.table.area().within(LAST_SLOT) & (self.key < self.table.columns)
    }

    // Whether its marks lie below the last slot, in a slice of this length.
    fn marks_fit(self, marks: usize) -> bool
        ensures { result ≡ spec.marks_fit marks self }
    {
        cells::within(self.table.marks, self.table.rows, LAST_MARKS) & (MARK_ROOM <= marks)
    }
}
