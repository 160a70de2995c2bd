// Runs each container that the arguments name with several lengths of the slice for the text, and prints what each call answers, and the text.
#![tactic(auto)]

use std::io;

// More than the longest text.
const LONG: usize = 40000;

// One call, so nothing is left to share with the other programs.
fn main(rt: HostRuntime) -> io::Result<()> {
    arguments::for_each_file(&rt, |container| trial(&rt, container))
}

// Lends no byte, one too few, as many as the text has, and more; and prints the text.
fn trial(rt: &impl Print, container: &[u8]) -> io::Result<()> {
    println!(rt)?;
    let mut bytes = [0u8; LONG];
    let answer = run(container, &mut bytes);
    let text = released(&bytes, answer);
    lend(rt, container, 0)?;
    if let Some(text) = text {
        lend(rt, container, text.len().saturating_sub(1))?;
        lend(rt, container, text.len())?;
    }
    lend(rt, container, LONG)?;
    rt.write_all(text.unwrap_or(&[]))
}

// The text of a release, by its answer.
fn released(bytes: &[u8], answer: [u64; 4]) -> Option<&[u8]> {
    if answer[0] == 0 {
        bytes.get(..answer[3] as usize)
    } else {
        None
    }
}

// The line of a call with so many bytes for the text: how many, and the four numbers that it answers.
fn lend(rt: &impl Print, container: &[u8], room: usize) -> io::Result<()> {
    let mut text = [0u8; LONG];
    if let Some(text) = text.get_mut(..room) {
        let [number, first, row, column] = run(container, text);
        println!(rt; "T {room} {number} {first} {row} {column}")?;
    }
    Ok(())
}

fn run(container: &[u8], text: &mut [u8]) -> [u64; 4] {
    let mut values = [0i64; 8192];
    let mut labels = [0u32; 8192];
    let mut marks = [0u64; 1024];
    let mut output = [0i64; 2048];
    let mut trace = [0u32; 256];
    let mut answer = [0u64; 4];
    cilunovay::cilunovay_run(
        container,
        &[],
        &[],
        &[],
        &[],
        &[],
        &mut values,
        &mut labels,
        &mut marks,
        &mut output,
        &mut trace,
        text,
        &mut answer,
    );
    answer
}
