// The answer of a case, over memory that nobody reads after it.
use crate::cases::Case;
use crate::printing::{Cells, Draws, Given, Refused, Searched, Shown};
use crate::tables::Work;
use memory::{StepError, live_table};
use plan::Step;
use std::io;
use step::take_step;

// Prints a case and its answer.
pub fn print<R: Print>(rt: &R, case: Case<'_>, work: &mut Work) -> io::Result<()> {
    match case {
        Case::Step(step, container) => {
            let bytes = container.len();
            print!(rt; "{}", Shown { step, bytes })?;
            take(rt, work, container, &[], step)?;
        }
        Case::Noise(column, draws) => {
            let step = Step::Noise { column };
            print!(rt; "{}{}", Shown { step, bytes: 0 }, Draws(draws))?;
            take(rt, work, &[], draws, step)?;
        }
        Case::Container(bytes) => digits(rt, bytes)?,
        Case::StagesLeft => stages_left(rt, work)?,
        Case::FirstOver => first_over(rt, work)?,
        Case::Line(step) => trace(rt, step)?,
        Case::Output(count, at) => output(rt, work, count, at)?,
        Case::Clear => clear(rt, work)?,
    }
    println!(rt)
}

// A step: the tables after it, or its refusal.
fn take<R: Print>(
    rt: &R,
    work: &mut Work,
    container: &[u8],
    draws: &[i64],
    step: Step,
) -> io::Result<()> {
    print!(rt; "{}", Given(work))?;
    let stack = work.stack;
    let (mut cells, marks) = work.lend();
    match take_step(container, draws, &mut cells, marks, stack, step) {
        Ok(made) => {
            work.stack = made;
            print!(rt; "{work}")
        }
        Err(StepError::Refused(refusal)) => print!(rt; "{}", Refused(refusal)),
        Err(StepError::DoesNotFit) => print!(rt; " does not fit"),
    }
}

fn stages_left<R: Print>(rt: &R, work: &Work) -> io::Result<()> {
    let table = live_table(work.stack, 0).area();
    let left = trace_lines::stages_left(work.labels(), table);
    print!(rt; "stages left{} {left}", Given(work))
}

fn first_over<R: Print>(rt: &R, work: &Work) -> io::Result<()> {
    let table = live_table(work.stack, 0).area();
    let found = table_values::first_over(work.values(), table);
    print!(rt; "first OVER{}{}", Given(work), Searched(found))
}

// A trace line of SCAN, 5 rows, 2 columns and 3 stages left, in a trace of nine places that holds sevens: the function under trial writes to it.
fn trace<R: Print>(rt: &R, step: usize) -> io::Result<()> {
    let mut trace = [7; 9];
    let told = done(trace_lines::write_line(&mut trace, step, 1, 5, 2, 3));
    print!(rt;
        "line {step} gives{told}{}",
        Cells {
            values: &[0; 9],
            labels: &trace,
            at: 0,
            count: 9
        }
    )
}

// So many values from a place on, in an output of five places that holds sevens: the function under trial writes to it.
fn output<R: Print>(rt: &R, work: &Work, count: usize, at: usize) -> io::Result<()> {
    let mut released = [7; 5];
    let told = done(table_values::copy_out(work.values(), at, count, &mut released));
    print!(rt; "output of {count} from {at}{}{told}", Given(work))?;
    print!(rt;
        "{}",
        Cells {
            values: &released,
            labels: &[0; 5],
            at: 0,
            count: 5
        }
    )
}

// Work memory set to zero: its first cell, the last that is cleared, and the one behind it.
fn clear<R: Print>(rt: &R, work: &mut Work) -> io::Result<()> {
    let (mut cells, marks) = work.lend();
    let told = done(zeros::clear_memory(&mut cells, marks));
    let (values, labels) = (work.values(), work.labels());
    print!(rt;
        "clear gives{told}{}",
        Cells {
            values,
            labels,
            at: 0,
            count: 1
        }
    )?;
    print!(rt;
        "{}",
        Cells {
            values,
            labels,
            at: 8191,
            count: 2
        }
    )
}

// What such a function answers is one of two words, with its comma.
fn done(done: bool) -> &'static str {
    if done { " done," } else { " does not fit," }
}

// A container, two digits for a byte.
fn digits<R: Print>(rt: &R, container: &[u8]) -> io::Result<()> {
    print!(rt; "container ")?;
    for byte in container {
        print!(rt; "{byte:02x}")?;
    }
    Ok(())
}
