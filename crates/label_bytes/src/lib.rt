// The label test and the stages left, byte by byte, beside the same of the product: for the tests alone, which compare their answers and
// their times. Nothing of the product depends on this crate. A label stands in four bytes, little-endian, as in a container.
#![tactic(auto)]

mod labels;
mod stages;
mod test;

pub use labels::{labels_by_bytes, labels_by_words};
pub use stages::{stages_by_bytes, stages_by_words};
