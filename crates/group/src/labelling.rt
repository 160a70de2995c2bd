// The label of a group's aggregate.
ghost use Rattle.std.specs.Prelude.{◌≡◌, true, ◌<◌, length};
ghost use Rattle.label_composition.specs.Composition.{composed};
ghost use Rattle.label_discharge.specs.Discharge.{after_a};
ghost use Rattle.label_words.specs.WellFormed.{well_formed};
ghost use Rattle.chains.specs.promises.Chains.{Onward};
ghost use Rattle.group.specs.promises.Members as spec;

use crate::{Grouping, Led};

// The labels of the group that a row leads, each discharged over so many sheets, composed in row order. It is not one fold with that of the
// values, by a closure: the contract of the fold would have to carry, for the labels alone, that each one met allows it.
pub fn group_label(labels: &[u32], led: Led, g: Grouping, size: u32) -> u32
    requires column_inside { spec.ColumnInside g (length labels.now) }
    requires row_lt_rows { (led.row < g.table.rows) × Onward g.table.rows led.next.now }
    ensures { spec.GroupLabel g labels.now led.entry.next.now led.entry.row size result }
{
    let Grouping { table, column, .. } = g;
    let Led { next, row } = led;
    let code = operations::aggregate_code(g.aggregate);
    let first = table.at + row * table.columns;
    let mut all = with_label(0, labels[first + column], code, size);
    // The rows of a chain are no counted index.
    let mut other = next[row];
    while other < table.rows {
        let place = table.at + other * table.columns;
        all = with_label(all, labels[place + column], code, size);
        other = next[other];
    }
    all
}

// A label composed with another one, discharged, which most often is clear then and changes nothing. Words that are no labels, or forbid it,
// are not met.
fn with_label(all: u32, next: u32, code: u32, size: u32) -> u32
    ensures { well_formed all ≡ true → spec.AllowedLabel next → code < 5 → result ≡ composed all (after_a next code size) }
{
    match label::discharge_aggregate(next, code, size) {
        Ok(0) => all,
        Ok(left) => label::compose(all, left).unwrap_or(0),
        Err(_) => 0,
    }
}
