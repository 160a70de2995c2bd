// Runs each container that the arguments name, lent the four overlays in the files of the arguments after it, of which any may be empty: its name on a
// line, and then what the monitor prints of it, lent no draws.
#![tactic(auto)]

use arguments::{MOST, name_at, read_file};
use std::fs::Files;
use std::{env, io};

// By fives: a container and its four overlays.
fn main(rt: HostRuntime) -> io::Result<()> {
    let names: Vec<String> = env::args(&rt)?.skip(1).collect(rt.alloc())?;
    for group in names.chunks(5) {
        trial(&rt, group)?;
    }
    Ok(())
}

// A name that is missing is that of a file that can't be opened.
fn trial<R: Files + Print + Eprint>(rt: &R, names: &[String]) -> io::Result<()> {
    let mut bytes = [0u8; MOST];
    if let Some(length) = read_file(rt, name_at(names, 0), true, &mut bytes)? {
        println!(rt)?;
        overlaid(rt, &bytes[..length], names)?;
    }
    Ok(())
}

// Lends the four overlays that the names behind the first one have.
fn overlaid<R: Files + Print + Eprint>(
    rt: &R,
    container: &[u8],
    names: &[String],
) -> io::Result<()> {
    let mut bytes_0 = [0u8; MOST];
    let mut bytes_1 = [0u8; MOST];
    let mut bytes_2 = [0u8; MOST];
    let mut bytes_3 = [0u8; MOST];
    let first = read_file(rt, name_at(names, 1), false, &mut bytes_0)?;
    let second = read_file(rt, name_at(names, 2), false, &mut bytes_1)?;
    let third = read_file(rt, name_at(names, 3), false, &mut bytes_2)?;
    let fourth = read_file(rt, name_at(names, 4), false, &mut bytes_3)?;
    if let (Some(first), Some(second), Some(third), Some(fourth)) = (first, second, third, fourth) {
        report::report_overlaid(
            rt,
            container,
            &bytes_0[..first],
            &bytes_1[..second],
            &bytes_2[..third],
            &bytes_3[..fourth],
        )?;
    }
    Ok(())
}
