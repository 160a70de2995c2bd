// Rows with the same keys. Each row has a first row with its keys, and the rows with one first row make a chain.
#![tactic(auto)]

ghost use Rattle.chains.specs.promises.Chains as spec;

mod hash;
mod leader;

use cells::Area;
use leader::Keyed;

// For each row the first row with its keys, and the next one; where there is none, how many rows there are. The chains are found, and
// nothing compares two of them.
#[derive(Clone, Copy)]
pub struct Chains {
    pub first: [usize; 256],
    pub next: [usize; 256],
}

// The chains of a table in the values. All are zero where the values do not have it.
pub fn find(values: &[i64], table: Area, keys: u32) -> Chains
    ensures { spec.Chained values.now table.at table.rows table.columns keys result }
{
    if !table.within(values.len()) {
        return Chains {
            first: [0; 256],
            next: [0; 256],
        };
    }
    let keyed = Keyed {
        values,
        table,
        keys,
    };
    let first = keyed.leaders();
    let next = leader::chain(&first, table.rows);
    Chains { first, next }
}
