// What the aggregates of a group are made of, one value after the other.
#![tactic(auto)]

ghost use Rattle.std.specs.Prelude.{◌≡◌};
ghost use Rattle.accumulator.specs.promises.Accumulators as spec;

use aggregate::{accumulated, larger, smaller};
use plan::Aggregate;
use rounding::average;
use value::choice::chosen;
use value::range::{OVER, in_range, settled};

// The values of a group so far: how many there are, at most 256, whether all are in range, their running sum, the smallest and the largest. `exact` stands
// beside `total`, and no Option has both: which of the two counts is chosen without a branch, since the values may be locked.
#[derive(Clone, Copy, Debug, PartialEq, Eq)]
pub struct Accumulator {
    pub rows: u32,
    pub exact: bool,
    pub total: i64,
    pub least: i64,
    pub most: i64,
}

impl Accumulator {
    // Of one value.
    pub fn single(v: i64) -> Self
        ensures { result ≡ spec.single v }
    {
        Accumulator {
            rows: 1,
            exact: in_range(v),
            total: accumulated(0, v),
            least: v,
            most: v,
        }
    }

    // With one value more.
    pub fn with_value(self, v: i64) -> Self
        ensures { result ≡ spec.with_value self v }
    {
        Accumulator {
            rows: one_more(self.rows),
            exact: self.exact & in_range(v),
            total: accumulated(self.total, v),
            least: smaller(self.least, v),
            most: larger(self.most, v),
        }
    }

    // The aggregate of the values.
    pub fn value_of(self, aggregate: Aggregate) -> i64
        ensures { result ≡ spec.aggregate_of aggregate self }
    {
        match aggregate {
            Aggregate::Count => self.rows as i64,
            Aggregate::Sum => settled(chosen(self.exact, self.total, OVER)),
            Aggregate::Min => self.least,
            Aggregate::Max => self.most,
            Aggregate::Avg => { chosen(self.exact, average(self.total, self.rows), OVER) }
        }
    }
}

// One row more, at most 256.
fn one_more(rows: u32) -> u32
    ensures { result ≡ spec.one_more rows }
{
    rows.min(255) + 1
}
