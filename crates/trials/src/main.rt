// Runs each container that the arguments name: its name on a line, and then what the monitor prints of it, lent no draws.
#![tactic(auto)]

use std::io;

// One call, so nothing is left to share with the other programs.
fn main(rt: HostRuntime) -> io::Result<()> {
    arguments::for_each_file(&rt, |container| trial(&rt, container))
}

fn trial<R: Print + Eprint>(rt: &R, container: &[u8]) -> io::Result<()> {
    println!(rt)?;
    report::report(rt, container, &[])?;
    Ok(())
}
