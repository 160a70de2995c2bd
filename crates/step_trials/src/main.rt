// Runs steps on small tables. Each line of the input is a case: a step with its fields, a colon and the tables before it, as in `JOIN 0 =
// 1: 2| 1:0 OVER:20020002 / -3:0 4:0; 1| 5:0`. A NOISE has its draws, `NOISE 0 with 5,-3: 1| 1:0`. Its line of the output has the case, as
// it stands in memory, and its answer: the live tables after the step, a refusal with its row and column, or that the arguments do not fit.
// A line `container` has the bytes of which SCAN reads so many. Behind the colon `8191 values,`, `8191 labels,` or `1023 marks,` lends so many.
// Lines that begin with `#` say something to the reader, and a line that can't be read is printed as such.
#![tactic(auto)]

mod answers;
mod cases;
mod printing;
mod reading;
mod tables;

use crate::cases::Case;
use crate::reading::part;
use crate::tables::Work;
use std::io;

fn main(rt: HostRuntime) -> io::Result<()> {
    let mut input = [0u8; 65536];
    let length = arguments::read_full(&mut rt.stdin(), &mut input)?;
    let input = &input[..length];
    let mut container = &input[..0];
    for line in input.split(|byte| *byte == b'\n') {
        if part(line, b' ', 0) == b"container".as_slice() {
            container = line;
        }
        if !line.is_empty() && line[0] != b'#' {
            trial(&rt, line, container)?;
        }
    }
    Ok(())
}

// Runs the case of a line, with the last line that has a container.
fn trial<R: Print>(rt: &R, line: &[u8], container: &[u8]) -> io::Result<()> {
    let (mut bytes, mut numbers) = ([0; 128], [0; 4]);
    match cases::read(line, container, &mut bytes, &mut numbers) {
        Some(case) => answer(rt, line, case),
        None => printing::unreadable(rt, line),
    }
}

// Answers a case on the tables of its line.
fn answer<R: Print>(rt: &R, line: &[u8], case: Case<'_>) -> io::Result<()> {
    let behind = part(line, b':', 0).len().wrapping_add(2);
    let mut work = Work::new();
    match work.load(line.get(behind..).unwrap_or(&[])) {
        Some(()) => answers::print(rt, case, &mut work),
        None => printing::unreadable(rt, line),
    }
}
