// What is fixed of a table's text: the header's names and the end of a line. The writer copies them from here, and the reader compares with
// them byte by byte. specs/promises/Fixed.antt says that they are the definition's.
#![tactic(auto)]

// `c0` to `c7`, with commas between.
pub const NAMES: [u8; 23] = *b"c0,c1,c2,c3,c4,c5,c6,c7";

// The end of a line.
pub const LINE_END: [u8; 2] = *b"\r\n";
