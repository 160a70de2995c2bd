// What a walk asks of the slices that it is lent, and the trace line of a finished step.
#![tactic(auto)]

ghost use Rattle.std.specs.Prelude.{◌≡◌};
ghost use Rattle.walk_slices.specs.promises.Slices.{walk_room, LineWritten};

use memory::{ROOM, Stack};
use plan::Step;

// Whether slices of these lengths have the elements that a walk needs: 8,192 values and labels, 1,024 marks, and a trace of 256.
pub fn has_room(values: usize, labels: usize, marks: usize, trace: usize) -> bool
    ensures { result ≡ walk_room values labels marks trace }
{
    (8192 <= values) & (8192 <= labels) & (1024 <= marks) & (256 <= trace)
}

// Writes the line of step number `index`, whose table is on top of the stack, and answers true. Where the stack has no table, does not fit
// work memory with these labels, or the trace is too short for the line, it changes nothing.
pub fn write_step(labels: &[u32], trace: &mut [u32], stack: Stack, index: usize, step: Step) -> bool
    ensures { LineWritten labels.now trace.old stack index step result trace.new }
{
    if !memory::ready(ROOM, labels.len(), stack) || stack.depth == 0 {
        return false;
    }
    let table = memory::live_table(stack, 0);
    let stages = trace_lines::stages_left(labels, table.area());
    trace_lines::write_line(
        trace,
        index,
        kinds::kind_of(step),
        table.rows as u32,
        table.columns as u32,
        stages,
    )
}
