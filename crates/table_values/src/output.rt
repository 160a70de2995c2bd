// Released values.
ghost use Rattle.std.specs.Prelude.{◌≡◌, cond};
ghost use Rattle.table_values.specs.promises.Output as spec;

// Copies `count` values from place `at` on to the output's start, and answers true. Where they do not lie within the values, or the
// output is shorter, it changes nothing.
// The answer is a bool here and wherever a function answers whether it has written (write_line, clear_memory, read_marks, move_cells and others):
// who calls has tested that all fits and drops the answer, so that a Result would be a `let _ =` at each call.
// By a loop: of `copy_from_slice` the compiler makes a call of memmove, which the library does not ask for (include/cilunovay.h).
pub fn copy_out(values: &[i64], at: usize, count: usize, output: &mut [i64]) -> bool
    ensures value { result ≡ spec.copies values.now at count output.old }
    ensures output_after { output.new ≡ cond result (spec.copied values.now at count output.old) output.old }
{
    if !cells::within(at, count, values.len()) || output.len() < count {
        return false;
    }
    for i in 0..count {
        output[i] = values[at + i];
    }
    true
}
