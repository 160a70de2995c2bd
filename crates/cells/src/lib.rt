// Cells of work memory. They stand in two slices, values and labels, row by row.
#![tactic(auto)]

mod lent;
mod ranges;

pub use lent::LentCells;
pub use ranges::{Area, within};

// The cell that a search finds, by its row and column.
#[derive(Clone, Copy, PartialEq, Eq, Debug)]
pub struct At {
    pub row: usize,
    pub column: usize,
}

// Slices and numbers that do not fit one another.
#[derive(Clone, Copy, PartialEq, Eq, Debug)]
pub struct DoesNotFit;
