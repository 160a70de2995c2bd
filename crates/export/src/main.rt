// The export program: reads a container from standard input, and writes the text of the release to standard output. Of a refusal it writes
// nothing there, and the X line to standard error. It lends no draws.
#![tactic(auto)]

use arguments::{MOST, read_full};
use std::io;

fn main(rt: HostRuntime) -> io::Result<()> {
    let mut bytes = [0u8; MOST];
    let length = read_full(&mut rt.stdin(), &mut bytes)?;
    report::export(&rt, &bytes[..length], &[])?;
    Ok(())
}
