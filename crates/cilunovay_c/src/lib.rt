// The monitor's symbols for callers in C, C++ and Rust: each calls the function of its name in `cilunovay` and promises the same. Each slice is
// lent as a pointer and a length.
#![tactic(auto)]

ghost use Rattle.std.specs.Prelude.{◌≡◌};
ghost use Rattle.call_demands.specs.Calls.{check_call, check_called, convert_call, convert_called, run_call, run_called};
ghost use Rattle.demands.specs.Given.{given};
ghost use Rattle.demands.specs.Lent.{lent};

// Runs the monitor, writes the number of its answer and the three numbers after it to the answer's start, and answers the number: 0 for a
// release. Where the answer has fewer than four elements, nothing lent changes and the number is 1.
#[unsafe(no_mangle)]
pub extern "C" fn cilunovay_run(
    container: &[u8],
    draws: &[i64],
    overlay_0: &[u8],
    overlay_1: &[u8],
    overlay_2: &[u8],
    overlay_3: &[u8],
    values: &mut [i64],
    labels: &mut [u32],
    marks: &mut [u64],
    output: &mut [i64],
    trace: &mut [u32],
    text: &mut [u8],
    answer: &mut [u64],
) -> u32
    ensures { run_called result
        (lent values.new labels.new marks.new output.new trace.new text.new)
        answer.new
        ≡ run_call (given container.now draws.now overlay_0.now overlay_1.now
        overlay_2.now overlay_3.now)
        (lent values.old labels.old marks.old output.old trace.old text.old)
        answer.old }
{
    cilunovay::cilunovay_run(
        container, draws, overlay_0, overlay_1, overlay_2, overlay_3, values, labels, marks,
        output, trace, text, answer,
    )
}

// Checks a container, writes document 01's number and the byte offset after it to the answer's start, and answers the number: 0, and
// offset 0, where the container is accepted. Where the answer has fewer than two elements, it stays as it is and the number is 1.
#[unsafe(no_mangle)]
pub extern "C" fn cilunovay_check(container: &[u8], answer: &mut [u64]) -> u32
    ensures { check_called result answer.new ≡ check_call container.now answer.old }
{
    cilunovay::cilunovay_check(container, answer)
}

// Converts a container, writes 0 and the number of labels changed, or document 01's number and place, to the answer's start, and answers the
// first. Where the answer has fewer than two elements, nothing lent changes and the number is 1.
#[unsafe(no_mangle)]
pub extern "C" fn cilunovay_convert(
    container: &[u8],
    converted: &mut [u8],
    offsets: &mut [u32],
    answer: &mut [u64],
) -> u32
    ensures { convert_called result converted.new offsets.new answer.new
        ≡ convert_call container.now converted.old offsets.old answer.old }
{
    cilunovay::cilunovay_convert(container, converted, offsets, answer)
}
