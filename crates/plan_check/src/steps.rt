// A plan's length and its steps, in their order.
ghost use Rattle.std.specs.Prelude.{◌≡◌, [], ◌+◌, ◌^◌, ◌<◌, length};
ghost use Rattle.input.specs.Answers.{plan_says};
ghost use Rattle.plan_check.specs.PlanCheck.{check_steps, check_plan};
ghost use Rattle.plan_part.specs.PlanPart.{step_count, length_fits};

use super::stack::Widths;
use input::PlanRefusal;
use plan_part::step_count;
use records::found_at;

// Whether a plan's length is as it should be.
#[tactic(auto, unfolding(plan_part::specs::PlanPart::length_fits))]
fn length_fits(plan: &[u8]) -> bool
    ensures { result ≡ length_fits plan.now }
{
    let steps = step_count(plan);
    (plan.len() % 16 == 0) & (1..=64).contains(&steps)
}

// 17, 18 and 19: the first step that is wrong, by its record, the tables on the stack, or their columns. The plan begins at `at`.
fn check_steps(plan: &[u8], at: usize, tables: &[usize]) -> Result<(), PlanRefusal>
    requires { at + length plan.now < 2 ^ 64 }
    ensures { plan_says result ≡ check_steps plan.now at 0 (step_count plan.now) tables.now [] }
{
    let count = step_count(plan);
    let mut stack = Widths::new();
    for step in 0..count {
        let place = at + 16 * step;
        let next = found_at(plan, step).ok_or(PlanRefusal::Record(place))?;
        if !kinds::enough_tables(next, stack.len()) {
            return Err(PlanRefusal::Tables(place));
        }
        let columns = stack
            .made_width(next, tables)
            .ok_or(PlanRefusal::Columns(place))?;
        stack.push(kinds::takes(next), columns);
    }
    if stack.len() != 1 {
        return Err(PlanRefusal::Tables(at + 16 * count));
    }
    Ok(())
}

// 16, 17, 18 and 19 of a plan part that begins at `at`, over tables of these widths.
#[tactic(auto, unfolding(crate::specs::PlanCheck::check_plan))]
pub fn check_plan(plan: &[u8], at: u32, tables: &[usize]) -> Result<(), PlanRefusal>
    ensures { plan_says result ≡ check_plan plan.now at tables.now }
{
    let place = at as usize;
    if !length_fits(plan) {
        return Err(PlanRefusal::Length(place));
    }
    check_steps(plan, place, tables)
}
