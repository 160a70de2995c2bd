// The stages left on a table.
ghost use Rattle.std.specs.Prelude.{◌≡◌, ◌<◌, ◌^◌, sum_by};
ghost use Rattle.label_words.specs.Stages.{stage_count};
ghost use Rattle.trace_lines.specs.promises.Stages as spec;

use cells::Area;

// The sum of present stages over all cells of a table, at most 8,192. It is 0 where the table does not lie within the labels.
pub fn stages_left(labels: &[u32], table: Area) -> u32
    ensures { result ≡ spec.stages_at labels.now table.at table.rows table.columns }
{
    if !table.within(labels.len()) {
        return 0;
    }
    let Area { at, rows, columns } = table;
    stages_of(&labels[at..at + rows * columns])
}

// The sum of their stages.
fn stages_of(labels: &[u32]) -> u32
    requires { sum_by (λ label. stage_count label) labels.now < 2 ^ 32 }
    ensures { result ≡ sum_by (λ label. stage_count label) labels.now }
{
    labels.iter().map(|label| label::stage_count(*label)).sum()
}
