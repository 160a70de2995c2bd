// The input checks, in document 01's order.
ghost use Rattle.std.specs.Prelude.{◌≡◌, ◌-◌, ◌≤◌, take};
ghost use Rattle.container.specs.Check.{check_tables, table_widths, check_plan_part, check_input_from, check_input};
ghost use Rattle.input.specs.Verdict.{accepted};
ghost use Rattle.input.specs.Answers.{input_says};
ghost use Rattle.layout.specs.Layout.{part_count};
ghost use Rattle.layout_check.specs.Checks.{check_container};

use input::InputRefusal;
use layout::{part, part_count, part_offset};
use layout_check::check_layout;
use little_endian::byte;
use plan_check::check_plan;
use table_check::check_table;

// 13, 14, 15 and 20 of each table in turn.
fn check_tables(container: &[u8], least: u16) -> Result<(), InputRefusal>
    ensures { input_says result ≡ check_tables least container.now 1 (part_count container.now - 1) }
{
    for index in 1..part_count(container) {
        check_table(part(container, index), part_offset(container, index), least)?;
    }
    Ok(())
}

// The columns of the first `count` tables, in an array of eight: no heap on the path of a run.
fn table_widths(container: &[u8], count: usize) -> [usize; 8]
    requires { count ≤ 8 }
    ensures { take count result ≡ table_widths container.now 1 count }
{
    let mut widths = [0; 8];
    for index in 0..count {
        widths[index] = byte(part(container, index + 1), 0) as usize;
    }
    widths
}

// 16, 17, 18 and 19 of the plan, over the widths of the tables.
fn check_plan_part(container: &[u8]) -> Result<(), InputRefusal>
    requires { check_container container.now ≡ accepted }
    ensures { input_says result ≡ check_plan_part container.now }
{
    let tables = part_count(container) - 1;
    let widths = table_widths(container, tables);
    let plan = part(container, 0);
    check_plan(plan, part_offset(container, 0), &widths[..tables])?;
    Ok(())
}

// What is wrong with a container first, if anything is, where no group minimum may be below `least`.
#[tactic(auto, unfolding(crate::specs::Check::check_input_from))]
pub fn check_input_from(container: &[u8], least: u16) -> Result<(), InputRefusal>
    ensures { input_says result ≡ check_input_from least container.now }
{
    check_layout(container)?;
    check_tables(container, least)?;
    check_plan_part(container)
}

// The same under the smallest minimum that a label may have.
#[tactic(auto, unfolding(crate::specs::Check::check_input))]
pub fn check_input(container: &[u8]) -> Result<(), InputRefusal>
    ensures { input_says result ≡ check_input container.now }
{
    check_input_from(container, 2)
}
