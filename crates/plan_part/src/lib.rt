// A plan part: how many steps it has, and the step at an index.
#![tactic(auto)]

ghost use Rattle.std.specs.Prelude.{◌≡◌};
ghost use Rattle.plan_part.specs.PlanPart.{step_count};
ghost use Rattle.plan_part.specs.promises.Steps.{step_at};

use plan::Step;
use records::found_at;

// How many steps a plan has room for.
pub fn step_count(plan: &[u8]) -> usize
    ensures { result ≡ step_count plan.now }
{
    plan.len() / 16
}

// The step at an index of a plan, if the plan has so many and the record there has one.
#[tactic(auto, unfolding(crate::specs::promises::Steps::step_at))]
pub fn step_at(plan: &[u8], step: usize) -> Option<Step>
    ensures { result ≡ step_at plan.now step }
{
    if step < step_count(plan) {
        found_at(plan, step)
    } else {
        None
    }
}
