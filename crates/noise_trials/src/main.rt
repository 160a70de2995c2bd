// Runs each container that the arguments name, lent the draws in the file of the argument after it: its name on a line, and then what the monitor
// prints of it.
#![tactic(auto)]

mod draws;

use arguments::{MOST, name_at, read_file};
use std::fs::Files;
use std::{env, io};

// The most bytes that are read of the draws' text.
const LONGEST: usize = 65536;

// More draws than a trial has.
const MOST_DRAWS: usize = 2048;

// By twos: a container and its draws.
fn main(rt: HostRuntime) -> io::Result<()> {
    let names: Vec<String> = env::args(&rt)?.skip(1).collect(rt.alloc())?;
    for pair in names.chunks(2) {
        trial(&rt, pair)?;
    }
    Ok(())
}

// A name that is missing is that of a file that can't be opened.
fn trial<R: Files + Print + Eprint>(rt: &R, names: &[String]) -> io::Result<()> {
    let mut bytes = [0u8; MOST];
    let mut text = [0u8; LONGEST];
    let mut numbers = [0i64; MOST_DRAWS];
    let length = read_file(rt, name_at(names, 0), true, &mut bytes)?;
    let read = read_file(rt, name_at(names, 1), false, &mut text)?;
    if let (Some(length), Some(read)) = (length, read) {
        println!(rt)?;
        let count = draws::read(&text[..read], &mut numbers);
        report::report(rt, &bytes[..length], &numbers[..count])?;
    }
    Ok(())
}
