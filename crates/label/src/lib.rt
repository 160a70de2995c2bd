// The label rules: a library of its own. A label is one 32-bit word, a chain of at most four stages.
// A crate that takes an answer apart depends on `label_words` too, which declares its type.
#![tactic(auto)]

pub use label_composition::compose;
pub use label_discharge::{discharge_aggregate, discharge_noise, discharge_transform};
pub use label_words::{
    Highest, LabelRefusal, highest_stage, stage_count, well_formed, well_formed_from,
};
