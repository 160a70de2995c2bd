// A plan's records: the step of each, where the record is as it should be.
#![tactic(auto)]

mod record;

pub use record::found_at;

// A step's record: its five bytes, the three bytes that are zero as one number, and the bits of its constant. Nothing compares two of them.
#[derive(Clone, Copy)]
pub struct Fields {
    pub kind: u8,
    pub a: u8,
    pub b: u8,
    pub c: u8,
    pub d: u8,
    pub spare: u32,
    pub constant: u64,
}
