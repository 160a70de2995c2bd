// What the programs print of a container: S lines for the finished steps, then R lines for the released rows, or X with the refusal's
// number and its place; or the text of the release.
#![tactic(auto)]

mod printed;

ghost use Rattle.std.specs.Prelude.{[], IfOk};
ghost use Rattle.demands.specs.Given.{given};
ghost use Rattle.report.specs.promises.Number.{CallNumber};

use std::io;

// Runs a container, with draws, over slices of its own, prints what the monitor makes of it, and answers the number that a call of `cilunovay_run` with
// slices of enough elements answers. What it prints is tested and not proved.
pub fn report<R: Print + Eprint>(rt: &R, container: &[u8], draws: &[i64]) -> io::Result<u32>
    ensures { IfOk result (λ number. CallNumber (given container.now draws.now [] [] [] []) number) }
{
    run(
        container,
        draws,
        &[],
        &[],
        &[],
        &[],
        |output, trace, _, answer| { lines(rt, container, output, trace, answer) },
    )
}

// The same with overlays, and no draws. The four stand apart as callers in C lend them.
pub fn report_overlaid<R: Print + Eprint>(
    rt: &R,
    container: &[u8],
    overlay_0: &[u8],
    overlay_1: &[u8],
    overlay_2: &[u8],
    overlay_3: &[u8],
) -> io::Result<u32>
    ensures { IfOk result (λ number. CallNumber (given container.now [] overlay_0.now overlay_1.now
        overlay_2.now overlay_3.now) number) }
{
    run(
        container,
        &[],
        overlay_0,
        overlay_1,
        overlay_2,
        overlay_3,
        |output, trace, _, answer| lines(rt, container, output, trace, answer),
    )
}

// Runs a container, with draws, and prints the text of a release alone; of a refusal it prints the X line, on standard error.
pub fn export<R: Print + Eprint>(rt: &R, container: &[u8], draws: &[i64]) -> io::Result<u32>
    ensures { IfOk result (λ number. CallNumber (given container.now draws.now [] [] [] []) number) }
{
    run(container, draws, &[], &[], &[], &[], |_, _, text, answer| {
        printed::export(rt, text, answer)
    })
}

// Prints the lines of an answer.
fn lines<R: Print>(
    rt: &R,
    container: &[u8],
    output: &[i64],
    trace: &[u32],
    answer: &[u64; 4],
) -> io::Result<()> {
    let steps = plan_part::step_count(layout::part(container, 0));
    printed::print(rt, output, trace, answer, steps)
}

// Runs a container, and prints by a rule what the call leaves in the output, the trace, the text and the answer. It calls `cilunovay_run` and
// reads that function's numbers, so that the programs run what a caller in C runs. A public one would need a `requires`: that the rule may be called.
fn run<F: FnOnce(&[i64], &[u32], &[u8], &[u64; 4]) -> io::Result<()>>(
    container: &[u8],
    draws: &[i64],
    overlay_0: &[u8],
    overlay_1: &[u8],
    overlay_2: &[u8],
    overlay_3: &[u8],
    print: F,
) -> io::Result<u32>
    requires { F.IsAlwaysCallable print }
    ensures { IfOk result (λ number. CallNumber (given container.now draws.now overlay_0.now
        overlay_1.now overlay_2.now overlay_3.now) number) }
{
    let mut values = [0i64; 8192];
    let mut labels = [0u32; 8192];
    let mut marks = [0u64; 1024];
    let mut output = [0i64; 2048];
    let mut trace = [0u32; 256];
    let mut text = [0u8; 35097];
    let mut answer = [0u64; 4];
    let number = cilunovay::cilunovay_run(
        container,
        draws,
        overlay_0,
        overlay_1,
        overlay_2,
        overlay_3,
        &mut values,
        &mut labels,
        &mut marks,
        &mut output,
        &mut trace,
        &mut text,
        &mut answer,
    );
    print(&output, &trace, &text, &answer)?;
    Ok(number)
}
