// Runs the label library on the examples of document 01 and on words and operations that tell its rules apart. Each line has
// the inputs and the answer, labels in hexadecimal.
#![tactic(auto)]

use label::LabelRefusal;
use std::io;

// Words to test.
const WORDS: [u32; 35] = [
    0x00000000, 0x00000001, 0x20000001, 0x20000002, 0x20030000, 0x20030014, 0x80000000, 0x44000000,
    0x44000C00, 0x44001800, 0x44001C00, 0x40000000, 0x40000C00, 0x4F000400, 0x04000C00, 0x00010000,
    0x200003FF, 0x200103FF, 0x201F03FF, 0x10000000, 0x10800000, 0x00800000, 0x64030C14, 0xF4838C14,
    0xFF9F1BFF, 0xF0000001, 0xF0000002, 0x00400000, 0x00200000, 0x00008000, 0x00004000, 0x00002000,
    0xFFFFFFFF, 0x60000002, 0x30800005,
];

// Pairs of words to compose.
const COMPOSITIONS: [(u32, u32); 22] = [
    (0x20030014, 0x2002001E),
    (0x44000C00, 0x20030014),
    (0x45000C00, 0x41000000),
    (0x41000000, 0x45000C00),
    (0x00000000, 0x64030C14),
    (0x64030C14, 0x00000000),
    (0x64030C14, 0x64030C14),
    (0x80000000, 0x20010005),
    (0x10800000, 0x10000000),
    (0x10800000, 0x10800000),
    (0x10800000, 0x2001000A),
    (0x44000C00, 0x44001400),
    (0x4C000400, 0x44001800),
    (0x48000000, 0x44001800),
    (0x2001000A, 0x20020005),
    (0x20000002, 0x201F03FF),
    (0x20000001, 0x201F03FF),
    (0x20030014, 0x20020001),
    (0x00000001, 0x00000000),
    (0x00000000, 0x00000001),
    (0x20030000, 0x00000001),
    (0x44000000, 0x20030014),
];

// A word, an operation of level T, 0 add, 1 sub, 2 cut, 3 band, and the digits that a cut takes off.
const TRANSFORMS: [(u32, u32, u32); 23] = [
    (0x64030C14, 2, 3),
    (0x64030C14, 2, 2),
    (0x64030C14, 2, 4),
    (0x64030C14, 0, 0),
    (0x64030C14, 3, 0),
    (0x41000000, 0, 0),
    (0x41000000, 1, 0),
    (0x42000000, 1, 0),
    (0x48000000, 3, 0),
    (0x48000000, 2, 6),
    (0x44001800, 2, 6),
    (0x44001800, 2, 5),
    (0x80000000, 0, 0),
    (0xC1000000, 0, 0),
    (0x20030014, 0, 0),
    (0x00000000, 3, 0),
    (0x10800000, 2, 1),
    (0x44000C00, 2, 0),
    (0x44000C00, 2, 7),
    (0x44000C00, 4, 0),
    (0x44000000, 4, 0),
    (0x00000001, 0, 0),
    (0x4F000400, 3, 7),
];

// A word, an operation of level A, 0 count, 1 sum, 2 min, 3 max, 4 avg, and the sheets of a group.
const AGGREGATES: [(u32, u32, u32); 23] = [
    (0x20030014, 1, 20),
    (0x20030014, 1, 19),
    (0x20030014, 0, 256),
    (0x20030014, 2, 256),
    (0x20030014, 4, 256),
    (0x20100002, 4, 2),
    (0x20080002, 3, 2),
    (0x20040003, 2, 3),
    (0x64030C14, 1, 256),
    (0x80000000, 0, 9),
    (0xA0010002, 0, 9),
    (0x40000000, 0, 9),
    (0x10800000, 0, 9),
    (0x30830002, 0, 2),
    (0x30830002, 0, 1),
    (0x00000000, 1, 5),
    (0x20030014, 5, 20),
    (0x20030000, 5, 20),
    (0x201F03FF, 0, 1023),
    (0x201F03FF, 0, 1022),
    (0x20000002, 0, 0),
    (0x20020002, 1, 1),
    (0x20020001, 1, 1),
];

// Words that noise is to discharge.
const NOISES: [u32; 23] = [
    0x10800000, 0x10000000, 0x00000000, 0x20020002, 0x20000002, 0x30800001, 0x30820002, 0x30000200,
    0x41000000, 0x50800000, 0x64030C14, 0x74830C14, 0x80000000, 0x90800000, 0xF0000002, 0xFF9F1BFF,
    0x00800000, 0x10800001, 0x14800C00, 0x10808000, 0x30830000, 0x90400000, 0xFFFFFFFF,
];

fn main(rt: HostRuntime) -> io::Result<()> {
    for word in WORDS {
        tell_word(&rt, word)?;
    }
    for (left, right) in COMPOSITIONS {
        print!(rt; "{left:08x} with {right:08x}")?;
        tell_answer(&rt, label::compose(left, right))?;
    }
    for (word, operation, digits) in TRANSFORMS {
        print!(rt; "{word:08x} transform {operation} digits {digits}")?;
        tell_answer(&rt, label::discharge_transform(word, operation, digits))?;
    }
    for (word, operation, sheets) in AGGREGATES {
        print!(rt; "{word:08x} aggregate {operation} sheets {sheets}")?;
        tell_answer(&rt, label::discharge_aggregate(word, operation, sheets))?;
    }
    for word in NOISES {
        print!(rt; "{word:08x} noise")?;
        tell_answer(&rt, label::discharge_noise(word))?;
    }
    Ok(())
}

// The test of a word, its count of stages and its highest stage.
fn tell_word(rt: &impl Print, word: u32) -> io::Result<()> {
    let test = if label::well_formed(word) {
        "label"
    } else {
        "ill-formed"
    };
    let stages = label::stage_count(word);
    let highest = label::highest_stage(word);
    println!(rt; "{word:08x} {test}, stages {stages}, {highest}")
}

fn tell_answer(rt: &impl Print, answer: Result<u32, LabelRefusal>) -> io::Result<()> {
    match answer {
        Ok(left) => println!(rt; " gives {left:08x}"),
        Err(refusal) => println!(rt; " gives {refusal}"),
    }
}
