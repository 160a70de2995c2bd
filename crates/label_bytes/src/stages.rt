// The stages left on the table that begins with the first label. It is 0 where there are not so many labels.
ghost use Rattle.std.specs.Prelude.{◌≡◌, ◌<◌, ◌^◌, sum_by};
ghost use Rattle.label_words.specs.Stages.{stage_count};
ghost use Rattle.little_endian.specs.Bytes.{number_at};
ghost use Rattle.trace_lines.specs.promises.Stages.{stages_at};
ghost use Rattle.label_bytes.specs.Words.{words_of};

use super::test;
use cells::Area;

// By the product's sum.
pub fn stages_by_words(labels: &[u32], rows: usize, columns: usize) -> u32
    ensures { result ≡ stages_at labels.now 0 rows columns }
{
    let table = Area {
        at: 0,
        rows,
        columns,
    };
    trace_lines::stages_left(labels, table)
}

// By the first byte of each label.
pub fn stages_by_bytes(bytes: &[u8], rows: usize, columns: usize) -> u32
    ensures { result ≡ stages_at (words_of bytes.now) 0 rows columns }
{
    let (labels, _) = bytes.as_chunks::<4>();
    let table = Area {
        at: 0,
        rows,
        columns,
    };
    if !table.within(labels.len()) {
        return 0;
    }
    stages_of(&labels[..rows * columns])
}

// The sum of their stages.
fn stages_of(labels: &[[u8; 4]]) -> u32
    requires { sum_by (λ label. stage_count (number_at label 0 4)) labels.now < 2 ^ 32 }
    ensures { result ≡ sum_by (λ label. stage_count (number_at label 0 4)) labels.now }
{
    labels.iter().map(test::stage_count).sum()
}
