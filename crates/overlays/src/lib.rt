// All input checks: those of the container, then those of the overlays.
#![tactic(auto)]

ghost use Rattle.std.specs.Prelude.{◌≡◌, map};
ghost use Rattle.input.specs.Answers.{input_says};
ghost use Rattle.overlays.specs.Overlays.{check_all};

use container::check_input;
use input::InputRefusal;
use overlay_check::check_overlay;

// What is wrong first with a container or one of its overlays, if anything is. An empty slice is no overlay.
#[tactic(auto, unfolding(crate::specs::Overlays::check_all))]
pub fn check_all(container: &[u8], overlays: &[&[u8]; 4]) -> Result<(), InputRefusal>
    ensures { input_says result ≡ check_all container.now (map (λ overlay. overlay.now) overlays.now) }
{
    check_input(container)?;
    for overlay in overlays {
        check_overlay(container, overlay)?;
    }
    Ok(())
}
