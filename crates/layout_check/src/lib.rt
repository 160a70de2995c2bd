// The checks of a container's length, its part count, its rule year and its directory.
#![tactic(auto)]

ghost use Rattle.std.specs.Prelude.{◌≡◌};
ghost use Rattle.directory.specs.Directory.{check_directory};
ghost use Rattle.input.specs.Verdict.{and_then};
ghost use Rattle.input.specs.Answers.{input_says};
ghost use Rattle.layout.specs.Layout.{part_count};
ghost use Rattle.layout_check.specs.Checks.{check_container};

use directory::check_directory;
use input::InputRefusal;
use layout::{part_count, rule_year};
use little_endian::byte;

// 11: the container's length, its rule year, its part count, and the room for its directory.
#[tactic(auto, unfolding(crate::specs::Checks::check_container))]
fn check_container(container: &[u8]) -> Result<(), InputRefusal>
    ensures { input_says result ≡ check_container container.now }
{
    let len = container.len();
    let count = part_count(container);
    if (65_536 < len)
        | (len < 2)
        | (1 < rule_year(container))
        | !(2..=9).contains(&count)
        | (len < 2 + 8 * count)
    {
        Err(InputRefusal::Container)
    } else {
        Ok(())
    }
}

// 11, then 12.
pub fn check_layout(container: &[u8]) -> Result<(), InputRefusal>
    ensures { input_says result ≡ and_then (check_container container.now) (check_directory 12 (part_count container.now) container.now) }
{
    check_container(container)?;
    let parts = byte(container, 0) as u16;
    check_directory(container, parts).map_err(|wrong| InputRefusal::Directory(wrong.place))
}
