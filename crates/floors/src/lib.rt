// The floor of ten, on the labels of a table in work memory.
#![tactic(auto)]

ghost use Rattle.std.specs.Prelude.{◌≡◌, map};
ghost use Rattle.floors.specs.promises.Flooring.{after_floor};
ghost use Rattle.label_floor.specs.Floor.{floored};

use cells::Area;
use label_floor::raise_minimum;

// Reads the labels of a table under a rule year. Where there is no such table within the labels, nothing changes, and under no year but 1 either.
#[tactic(auto, unfolding(crate::specs::promises::Flooring::after_floor))]
pub fn floor_labels(labels: &mut [u32], table: Area, year: u8)
    ensures { labels.new ≡ after_floor year table.at table.rows table.columns labels.old }
{
    if year != 1 {
        return;
    }
    if !table.within(labels.len()) {
        return;
    }
    let Area { at, rows, columns } = table;
    raise_labels(&mut labels[at..at + rows * columns]);
}

// Each label with the floor.
fn raise_labels(labels: &mut [u32])
    ensures { labels.new ≡ map (floored 1) labels.old }
{
    for label in labels.iter_mut() {
        *label = raise_minimum(*label);
    }
}
