// Words of 32 bits as labels: their fields, the stages that they have, and which of them are labels.
#![tactic(auto)]

mod fields;
mod test;
mod text;

pub use fields::{bit, field};
pub use test::{highest_stage, stage_count, well_formed, well_formed_from};

// The highest stage present, and Clear where there is none: the five answers of the definition `highest`.
#[derive(Clone, Copy, Debug, PartialEq, Eq)]
pub enum Highest {
    H,
    T,
    A,
    N,
    Clear,
}

// Why composition or discharge makes no label: the operation is forbidden on the label; the word is no
// label (15); the operation does not exist (17).
#[derive(Clone, Copy, Debug, PartialEq, Eq)]
pub enum LabelRefusal {
    Forbidden,
    IllFormed,
    NoOperation,
}
