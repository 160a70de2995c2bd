// The steps of a plan, from the first to the last or to a refusal.
ghost use Rattle.std.specs.Prelude.{◌≡◌, true, map};
ghost use Rattle.cells.specs.promises.Lent.{memory_held, SameCells};
ghost use Rattle.demands.specs.Given.{check_given};
ghost use Rattle.input.specs.Verdict.{accepted};
ghost use Rattle.walk.specs.promises.Walk.{room_in, Walked, given_of};

use super::{Finished, WalkRefusal};
use cells::LentCells;
use memory::StepError;
use overlaying::overlay_step;
use walk_slices::{has_room, write_step};

// Takes the steps of a container's plan under its rule year, with draws for its NOISE steps and overlays composed onto its tables' labels, and writes the
// lines of those that are finished to the trace's start. Work memory and the trace are long enough where they have 8,192 elements, 1,024 marks and 256
// elements.
pub fn walk(
    container: &[u8],
    draws: &[i64],
    overlays: &[&[u8]; 4],
    cells: &mut LentCells,
    marks: &mut [u64],
    trace: &mut [u32],
) -> Result<Finished, WalkRefusal>
    ensures walked { Walked (given_of container.now draws.now (map (λ overlay. overlay.now) overlays.now))
        (memory_held cells.old marks.old) trace.old result (memory_held cells.new marks.new) trace.new }
    ensures same { SameCells cells.old cells.new }
{
    let (values, labels) = (cells.values.len(), cells.labels.len());
    if !has_room(values, labels, marks.len(), trace.len()) {
        return Err(WalkRefusal::TooShort);
    }
    overlays::check_all(container, overlays)?;
    take_steps(container, draws, overlays, cells, marks, trace)
}

// Takes the steps of an accepted container's plan.
fn take_steps(
    container: &[u8],
    draws: &[i64],
    overlays: &[&[u8]; 4],
    cells: &mut LentCells,
    marks: &mut [u64],
    trace: &mut [u32],
) -> Result<Finished, WalkRefusal>
    requires is_accepted { check_given (given_of container.now draws.now (map (λ overlay. overlay.now) overlays.now)) ≡ accepted }
    requires room { room_in (memory_held cells.old marks.old) trace.old ≡ true }
    ensures walked { Walked (given_of container.now draws.now (map (λ overlay. overlay.now) overlays.now))
        (memory_held cells.old marks.old) trace.old result (memory_held cells.new marks.new) trace.new }
    ensures same { SameCells cells.old cells.new }
{
    let plan = layout::part(container, 0);
    let steps = plan_part::step_count(plan);
    let year = layout::rule_year(container);
    let mut stack = memory::no_tables();
    let mut used = 0;
    for index in 0..steps {
        // Each record of an accepted plan has a step.
        let Some(next) = plan_part::step_at(plan, index) else {
            unreachable!()
        };
        let top = memory::live_table(stack, 0);
        match step::take_step(container, &draws[used..], cells, marks, stack, next) {
            Ok(made) => stack = made,
            Err(StepError::Refused(refusal)) => return Err(WalkRefusal::Step(index, refusal)),
            // What the arguments fit they go on to fit, so a step that does not fit them does not occur.
            Err(StepError::DoesNotFit) => unreachable!(),
        }
        let labels = &mut *cells.labels;
        overlay_step(overlays, labels, stack, next, year);
        write_step(labels, trace, stack, index, next);
        used += kinds::draws_used(next, top.rows);
    }
    let left = memory::live_table(stack, 0);
    Ok(Finished {
        steps,
        rows: left.rows,
        columns: left.columns,
    })
}
