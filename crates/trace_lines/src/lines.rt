// Trace lines.
ghost use Rattle.std.specs.Prelude.{◌≡◌, cond};
ghost use Rattle.trace_lines.specs.promises.Lines as spec;

// Writes a step's trace line, and answers true. Where the trace is too short for it, it changes nothing. By the index, since a proof learns no
// element of a slice that is written through `as_chunks_mut` or `get_mut`.
pub fn write_line(
    trace: &mut [u32],
    step: usize,
    kind: u32,
    rows: u32,
    columns: u32,
    stages: u32,
) -> bool
    ensures value { result ≡ spec.line_fits step trace.old }
    ensures trace_after { trace.new ≡ cond result (spec.with_line step (spec.line kind rows columns stages) trace.old)
        trace.old }
{
    if trace.len() / 4 <= step {
        return false;
    }
    let at = 4 * step;
    trace[at..at + 4].copy_from_slice(&[kind, rows, columns, stages]);
    true
}
