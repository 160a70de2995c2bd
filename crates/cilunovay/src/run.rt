// A run of the monitor.
ghost use Rattle.std.specs.Prelude.{◌≡◌};
ghost use Rattle.demands.specs.Given.{given};
ghost use Rattle.demands.specs.Lent.{lent};
ghost use Rattle.call_demands.specs.Calls.{run_call, run_called};

use call_numbers::run_numbers;

// Runs the monitor, writes the number of its answer and the three numbers after it to the answer's start, and answers the number: 0 for a
// release. Where the answer has fewer than four elements, nothing lent changes and the number is 1.
pub fn cilunovay_run(
    container: &[u8],
    draws: &[i64],
    overlay_0: &[u8],
    overlay_1: &[u8],
    overlay_2: &[u8],
    overlay_3: &[u8],
    values: &mut [i64],
    labels: &mut [u32],
    marks: &mut [u64],
    output: &mut [i64],
    trace: &mut [u32],
    text: &mut [u8],
    answer: &mut [u64],
) -> u32
    ensures { run_called result
        (lent values.new labels.new marks.new output.new trace.new text.new)
        answer.new
        ≡ run_call (given container.now draws.now overlay_0.now overlay_1.now
        overlay_2.now overlay_3.now)
        (lent values.old labels.old marks.old output.old trace.old text.old)
        answer.old }
{
    if answer.len() < 4 {
        return 1;
    }
    let told = evaluator::run(
        container, draws, overlay_0, overlay_1, overlay_2, overlay_3, values, labels, marks,
        output, trace, text,
    );
    let numbers = run_numbers(told);
    answer[..4].copy_from_slice(&numbers);
    numbers[0] as u32
}
