// The checks of an overlay against its container.
#![tactic(auto)]

ghost use Rattle.std.specs.Prelude.{◌≡◌};
ghost use Rattle.input.specs.Answers.{input_says};
ghost use Rattle.overlay_check.specs.OverlayCheck as spec;

use directory::check_directory;
use input::InputRefusal;
use layout::{part, part_count, part_offset};
use little_endian::two;
use overlay_part::{check_labels, part_fits};

// 21, then 22. An empty slice is no overlay.
#[tactic(auto, unfolding(crate::specs::OverlayCheck::check_overlay))]
pub fn check_overlay(container: &[u8], overlay: &[u8]) -> Result<(), InputRefusal>
    ensures { input_says result ≡ spec.check_overlay container.now overlay.now }
{
    if overlay.is_empty() {
        return Ok(());
    }
    check_count(container, overlay)?;
    check_directory(overlay, two(overlay, 0)).map_err(|wrong| InputRefusal::Overlay(wrong.place))?;
    check_parts(container, overlay)?;
    check_part_labels(overlay)
}

// 21 of the overlay's length, its count, and the room for its directory.
#[tactic(auto, unfolding(crate::specs::OverlayCheck::check_count))]
fn check_count(container: &[u8], overlay: &[u8]) -> Result<(), InputRefusal>
    ensures { input_says result ≡ spec.check_count container.now overlay.now }
{
    let len = overlay.len();
    let count = two(overlay, 0) as usize;
    let parts = part_count(container);
    if (65_536 < len) | (len < 2) | !(count + 1 == parts) | (len < 2 + 8 * count) {
        Err(InputRefusal::Overlay(0))
    } else {
        Ok(())
    }
}

// 21 of each part in turn, against its table.
#[tactic(auto, using(crate::proofs::PartsLeft::after_part))]
fn check_parts(container: &[u8], overlay: &[u8]) -> Result<(), InputRefusal>
    ensures { input_says result ≡ spec.each_part (spec.check_part container.now overlay.now) 0 (spec.overlay_count overlay.now) }
{
    let count = two(overlay, 0) as usize;
    for index in 0..count {
        if !part_fits(part(container, index + 1), part(overlay, index)) {
            let place = part_offset(overlay, index) as usize;
            return Err(InputRefusal::Overlay(place));
        }
    }
    Ok(())
}

// 22 of each part in turn. A loop beside that of `check_parts`: one function for both, with a closure, is longer than either.
#[tactic(auto, using(crate::proofs::PartsLeft::after_part))]
fn check_part_labels(overlay: &[u8]) -> Result<(), InputRefusal>
    ensures { input_says result ≡ spec.each_part (spec.check_part_labels overlay.now) 0 (spec.overlay_count overlay.now) }
{
    let count = two(overlay, 0) as usize;
    for index in 0..count {
        check_labels(part(overlay, index), part_offset(overlay, index))?;
    }
    Ok(())
}
