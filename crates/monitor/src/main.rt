// The monitor program: reads a container from standard input, and prints the release with its trace, or the refusal with its place. It lends
// no draws.
#![tactic(auto)]

use arguments::{MOST, read_full};
use std::io;

fn main(rt: HostRuntime) -> io::Result<()> {
    let mut bytes = [0u8; MOST];
    let length = read_full(&mut rt.stdin(), &mut bytes)?;
    report::report(&rt, &bytes[..length], &[])?;
    Ok(())
}
