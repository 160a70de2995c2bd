// The conversion program: reads a container from standard input, and writes it with each group minimum of 1 raised to 2 to standard output, and
// the offset of each label changed, one a line, to standard error. Of a container that the check before #107 refuses it writes nothing to
// standard output, and the X line to standard error.
#![tactic(auto)]

use arguments::{MOST, read_full};
use std::io;

fn main(rt: HostRuntime) -> io::Result<()> {
    let mut bytes = [0u8; MOST];
    let length = read_full(&mut rt.stdin(), &mut bytes)?;
    let mut new = [0u8; MOST];
    let mut offsets = [0u32; 8192];
    match conversion::convert(&bytes[..length], &mut new, &mut offsets) {
        Ok(count) => {
            rt.write_all(&new[..length])?;
            changed(&rt, &offsets, count)
        }
        Err(refusal) => eprintln!(rt; "X {} {}", refusal.number(), refusal.place()),
    }
}

// The first offsets, one a line.
fn changed(rt: &impl Eprint, offsets: &[u32], count: usize) -> io::Result<()> {
    for offset in offsets.iter().take(count) {
        eprintln!(rt; "{offset}")?;
    }
    Ok(())
}
