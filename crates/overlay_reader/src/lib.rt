// The labels of an overlay, composed onto those of a table in work memory.
#![tactic(auto)]

ghost use Rattle.std.specs.Prelude.{◌≡◌, ◌≤◌, length};
ghost use Rattle.overlay_reader.specs.promises.Composing as spec;

use cells::Area;
use layout::part;
use little_endian::four;

// Composes the labels that an overlay has for the container's table with this number onto those of a table in work memory.
// Where the overlay is empty, or there is no such table within the labels, nothing changes.
#[tactic(auto, unfolding(crate::specs::promises::Composing::after_overlay))]
pub fn compose_labels(overlay: &[u8], table: usize, labels: &mut [u32], area: Area)
    ensures { labels.new ≡ spec.after_overlay overlay.now table area.at area.rows area.columns labels.old }
{
    if overlay.is_empty() {
        return;
    }
    if !area.within(labels.len()) {
        return;
    }
    let Area { at, rows, columns } = area;
    compose_part(part(overlay, table), &mut labels[at..at + rows * columns]);
}

// Composes the first labels of a part onto these.
#[tactic(auto, using(crate::proofs::Composing::label_composed))]
fn compose_part(part: &[u8], labels: &mut [u32])
    requires { length labels.old ≤ 2048 }
    ensures { labels.new ≡ spec.composed_labels part.now 0 labels.old }
{
    for (cell, label) in labels.iter_mut().enumerate() {
        *label = composed(*label, four(part, 4 + 4 * cell));
    }
}

// The composition of two labels; a word that is none, or meets none, stays. Most labels of an overlay are clear, and a clear one changes nothing.
#[tactic(auto, using(crate::proofs::Composing::with_clear))]
fn composed(label: u32, other: u32) -> u32
    ensures { result ≡ spec.composed_or label other }
{
    if other == 0 {
        return label;
    }
    if !(label::well_formed(label) & label::well_formed(other)) {
        return label;
    }
    label_composition::compose_words(label, other)
}
