// Runs the input checks on each container that the arguments name. Each line has the name and 'accepted' with the numbers of steps
// and tables, or X with the refusal's number and its place.
#![tactic(auto)]

use std::io;

// One call, so nothing is left to share with the other programs.
fn main(rt: HostRuntime) -> io::Result<()> {
    arguments::for_each_file(&rt, |container| answer(&rt, container))
}

fn answer(rt: &impl Print, container: &[u8]) -> io::Result<()> {
    match container::check_input(container) {
        Ok(()) => accepted(rt, container),
        Err(refusal) => println!(rt; " X {} {}", refusal.number(), refusal.place()),
    }
}

// The steps, and the tables: all parts but the plan.
fn accepted(rt: &impl Print, container: &[u8]) -> io::Result<()> {
    let steps = plan_part::step_count(layout::part(container, 0));
    let tables = layout::part_count(container).saturating_sub(1);
    println!(rt; " accepted {steps} {tables}")
}
