// Rows with the same mark.
#![tactic(auto)]

ghost use Rattle.std.specs.Prelude.{◌≡◌, ◌+◌, ◌≤◌, ◌<◌, ◌==◌, length, position};
ghost use Rattle.mark_numbers.specs.promises.Numbers as spec;

// How many hash values there are: enough that few of 256 marks share one.
const BUCKETS: usize = 4096;

// For each of at most 256 rows, whose marks stand from a place on, the first row with its mark; zero for all others. All are zero for more rows,
// and where the marks do not lie within the slice.
#[tactic(auto, unfolding(crate::specs::promises::Numbers::numbers_at))]
pub fn find(marks: &[u64], at: usize, rows: usize) -> [usize; 256]
    ensures { result ≡ spec.numbers_at marks.now at rows }
{
    if 256 < rows {
        return [0; 256];
    }
    if !cells::within(at, rows, marks.len()) {
        return [0; 256];
    }
    numbers(&marks[at..at + rows])
}

// For each hash value, `last` has the first row with the mark that was met last.
fn numbers(marks: &[u64]) -> [usize; 256]
    requires { length marks.now ≤ 256 }
    ensures { result ≡ spec.numbers_of marks.now }
{
    let mut found = [0; 256];
    let mut last: [Option<u8>; BUCKETS] = [None; BUCKETS];
    for row in 0..marks.len() {
        let bucket = marks[row] as usize % BUCKETS;
        let first = first_row(marks, row, last[bucket]);
        found[row] = first;
        last[bucket] = Some(first as u8);
    }
    found
}

// The place of the first mark that is this one.
fn place_of(marks: &[u64], mark: u64) -> Option<usize>
    ensures { result ≡ position (λ other. other == mark) marks.now }
{
    marks.iter().position(|other| *other == mark)
}

// The first row with the mark of a row: the row itself where there is no guess. Where the guess has another mark, the rows are looked at from
// the first on, and the row itself has it.
fn first_row(marks: &[u64], row: usize, guess: Option<u8>) -> usize
    requires { (row < length marks.now) × spec.Guess marks.now row guess }
    ensures { result ≡ spec.first_of marks.now row }
{
    let Some(before) = guess else {
        return row;
    };
    let mark = marks[row];
    let before = before as usize;
    if marks[before] == mark {
        return before;
    }
    place_of(marks, mark).unwrap_or(row)
}
