// The overlays, composed onto the table that a SCAN has pushed, and the floor of its rule year.
#![tactic(auto)]

ghost use Rattle.std.specs.Prelude.{◌≡◌, map};
ghost use Rattle.overlaying.specs.promises.Overlaying.{after_step};

use floors::floor_labels;
use live_tables::{Stack, live_table};
use overlay_reader::compose_labels;
use plan::Step;

// Composes the overlays onto the labels of the table on top of the stack, where the step that has made it is a SCAN, and then reads
// these labels under the rule year. An empty slice is no overlay.
pub fn overlay_step(overlays: &[&[u8]; 4], labels: &mut [u32], stack: Stack, step: Step, year: u8)
    ensures { labels.new ≡ after_step year (map (λ overlay. overlay.now) overlays.now) step stack labels.old }
{
    let Step::Scan { table } = step else {
        return;
    };
    let live = live_table(stack, 0);
    for overlay in overlays {
        compose_labels(overlay, table, labels, live.area());
    }
    floor_labels(labels, live.area(), year);
}
