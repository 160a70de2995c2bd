// A run of the monitor.
ghost use Rattle.std.specs.Prelude.{◌≡◌, map};
ghost use Rattle.cells.specs.promises.Lent.{SameCells};
ghost use Rattle.demands.specs.Given.{given};
ghost use Rattle.demands.specs.Lent.{lent};
ghost use Rattle.demands.specs.Monitor.{ended, monitor};
ghost use Rattle.run_answers.specs.Answers.{run_says};
ghost use Rattle.walk.specs.promises.Walk.{given_of};

use cells::LentCells;
use run_answers::{Released, RunRefusal};
use walk::WalkRefusal;

// Evaluates a container's plan over the lent work slices, with draws for its NOISE steps and overlays composed onto its tables' labels. A release
// writes its rows to the output's start and its text to the start of its slice; a release and a refusal of the evaluation write the lines of the
// finished steps to the trace's start, and leave the first 8,192 elements of work values and work labels and the first 1,024 marks zero. Where a
// slice is too short or the container or an overlay is refused, nothing lent changes.
pub fn run(
    container: &[u8],
    draws: &[i64],
    overlay_0: &[u8],
    overlay_1: &[u8],
    overlay_2: &[u8],
    overlay_3: &[u8],
    values: &mut [i64],
    labels: &mut [u32],
    marks: &mut [u64],
    output: &mut [i64],
    trace: &mut [u32],
    text: &mut [u8],
) -> Result<Released, RunRefusal>
    ensures { ended (run_says result)
        (lent values.new labels.new marks.new output.new trace.new text.new)
        ≡ monitor (given container.now draws.now overlay_0.now overlay_1.now
        overlay_2.now overlay_3.now)
        (lent values.old labels.old marks.old output.old trace.old
        text.old) }
{
    let overlays = &[overlay_0, overlay_1, overlay_2, overlay_3];
    let cells = &mut LentCells { values, labels };
    run_over(
        container, draws, overlays, cells, marks, output, trace, text,
    )
}

// The same over the cells as they are lent, and the overlays in one array.
fn run_over(
    container: &[u8],
    draws: &[i64],
    overlays: &[&[u8]; 4],
    cells: &mut LentCells,
    marks: &mut [u64],
    output: &mut [i64],
    trace: &mut [u32],
    text: &mut [u8],
) -> Result<Released, RunRefusal>
    ensures done { ended (run_says result)
        (lent cells.new.values.now cells.new.labels.now marks.new output.new trace.new text.new)
        ≡ monitor (given_of container.now draws.now (map (λ overlay. overlay.now) overlays.now))
        (lent cells.old.values.now cells.old.labels.now marks.old output.old trace.old text.old) }
    ensures same { SameCells cells.old cells.new }
{
    if output.len() < 2048 {
        return Err(RunRefusal::TooShort);
    }
    let answer = match walk::walk(container, draws, overlays, cells, marks, trace) {
        Ok(left) => {
            let values = &mut *cells.values;
            let labels = &mut *cells.labels;
            let told = release::release(values, labels, output, text, left.rows, left.columns);
            run_answers::of_release(told, left.steps, left.rows, left.columns)
        }
        // Steps were taken, so work memory is cleared before this is answered; the two below come before the first step.
        Err(WalkRefusal::Step(step, refusal)) => Err(RunRefusal::Step(step, refusal)),
        Err(WalkRefusal::TooShort) => return Err(RunRefusal::TooShort),
        Err(WalkRefusal::Input(refusal)) => return Err(RunRefusal::Input(refusal)),
    };
    zeros::clear_memory(cells, marks);
    answer
}
