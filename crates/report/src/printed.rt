// What stands for an answer: its lines, or the text of a release.
use std::{fmt, io};

// The lines of an answer in numbers, whose plan has so many steps.
pub fn print<R: Print>(
    rt: &R,
    output: &[i64],
    trace: &[u32],
    answer: &[u64; 4],
    steps: usize,
) -> io::Result<()> {
    let number = answer[0];
    if number == 0 {
        finished(rt, trace, steps)?;
        return released(rt, output, answer[1] as usize, answer[2] as usize);
    }
    if 31 <= number {
        finished(rt, trace, answer[1] as usize)?;
    }
    println!(rt; "{}", Refused(answer))
}

// The text of a release, on standard output; the line of a refusal, on standard error.
pub fn export<R: Print + Eprint>(rt: &R, bytes: &[u8], answer: &[u64; 4]) -> io::Result<()> {
    if answer[0] == 0 {
        rt.write_all(bytes.get(..answer[3] as usize).unwrap_or(&[]))
    } else {
        eprintln!(rt; "{}", Refused(answer))
    }
}

// The line of a refusal: a place of the input is one number, any other three. Nothing compares two of these.
#[derive(Drop)]
struct Refused<'a>(&'a [u64; 4]);

impl fmt::Display for Refused<'_> {
    fn fmt<W: fmt::Write>(&self, f: &mut fmt::Formatter<W>) -> fmt::Result {
        let [number, first, row, column] = *self.0;
        write!(f, "X {number} {first}")?;
        if !((11 <= number) & (number < 31)) {
            write!(f, " {row} {column}")?;
        }
        Ok(())
    }
}

// The lines of the first steps.
fn finished<R: Print>(rt: &R, trace: &[u32], steps: usize) -> io::Result<()> {
    let (lines, _) = trace.as_chunks::<4>();
    for (step, [first, second, third, fourth]) in lines.iter().take(steps).enumerate() {
        println!(rt; "S {step} {first} {second} {third} {fourth}")?;
    }
    Ok(())
}

// The released rows, row by row from the output's start.
fn released<R: Print>(rt: &R, output: &[i64], rows: usize, columns: usize) -> io::Result<()> {
    if columns == 0 {
        return Ok(());
    }
    for row in output.chunks(columns).take(rows) {
        print!(rt; "R")?;
        for value in row {
            print!(rt; " {value}")?;
        }
        println!(rt)?;
    }
    Ok(())
}
