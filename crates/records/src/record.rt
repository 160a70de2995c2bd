// The step of a plan's record, where the record is as it should be. A record has numbers for kinds and choices: each match over one gives the plan's
// own case, and None of any other number.
ghost use Rattle.std.specs.Prelude.{◌≡◌, ◌&&◌, ◌^◌, ◌<◌, ◌≤◌, IfSome, ltb};
ghost use Rattle.plan.specs.declared.Step.TheVariants.{Filter, Group};
ghost use Rattle.records.specs.Record.{comparison_of, aggregate_of, operand_written, operand_of, amount_fits};
ghost use Rattle.records.specs.Record.{fields_at, zeros, when, apply_by, step_of};
ghost use Rattle.records.specs.promises.Fields.{where_so};

use super::Fields;
use little_endian::{byte, eight, three};
use plan::{Aggregate, Comparison, Operand, Step, Transform};

// A step's record, copied out of a plan.
#[tactic(auto, unfolding(crate::specs::Record::fields_at))]
fn fields_at(plan: &[u8], step: usize) -> Fields
    requires { step < 2 ^ 60 }
    ensures { result ≡ fields_at plan.now step }
{
    let at = 16 * step;
    Fields {
        kind: byte(plan, at),
        a: byte(plan, at + 1),
        b: byte(plan, at + 2),
        c: byte(plan, at + 3),
        d: byte(plan, at + 4),
        spare: three(plan, at + 5),
        constant: eight(plan, at + 8),
    }
}

// FILTER's comparison by its number.
fn comparison_of(b: u8) -> Option<Comparison>
    ensures { result ≡ where_so (ltb b 6) (comparison_of b) }
{
    match b {
        0 => Some(Comparison::Equal),
        1 => Some(Comparison::Unequal),
        2 => Some(Comparison::Less),
        3 => Some(Comparison::AtMost),
        4 => Some(Comparison::Greater),
        5 => Some(Comparison::AtLeast),
        _ => None,
    }
}

// GROUP's aggregate by its number.
fn aggregate_of(b: u8) -> Option<Aggregate>
    ensures { result ≡ where_so (ltb b 5) (aggregate_of b) }
{
    match b {
        0 => Some(Aggregate::Count),
        1 => Some(Aggregate::Sum),
        2 => Some(Aggregate::Min),
        3 => Some(Aggregate::Max),
        4 => Some(Aggregate::Avg),
        _ => None,
    }
}

// The second operand of FILTER, add or sub, where it is as it should be: the constant or a column.
#[tactic(auto, unfolding(crate::specs::Record::operand_written))]
fn operand_of(f: Fields) -> Option<Operand>
    ensures { result ≡ where_so (operand_written f) (operand_of f) }
{
    let constant = value::pattern::signed(f.constant);
    if f.c == 0 && f.d == 0 && value::range::in_range(constant) {
        Some(Operand::Constant(constant))
    } else if f.c == 1 && f.constant == 0 {
        Some(Operand::Column(f.d as usize))
    } else {
        None
    }
}

// The constant of cut or band, where it is as it should be.
#[tactic(auto, unfolding(crate::specs::Record::amount_fits))]
fn amount_of(most: u64, f: Fields) -> Option<u64>
    ensures value { result ≡ where_so (amount_fits most f) f.constant }
    ensures within { IfSome result (λ amount. amount ≤ most) }
{
    let fits = f.c == 0 && f.d == 0 && 1 <= f.constant && f.constant <= most;
    fits.then_some(f.constant)
}

// Whether fields that a step does not use are zero; `x` has the bits of the bytes among them.
fn zeros(x: u8, constant: u64) -> bool
    ensures { result ≡ zeros x constant }
{
    x == 0 && constant == 0
}

// FILTER.
fn filter_of(f: Fields) -> Option<Step>
    ensures { result ≡ when (ltb f.b 6 && operand_written f) (Filter f.a (comparison_of f.b) (operand_of f)) }
{
    Some(Step::Filter {
        column: f.a as usize,
        comparison: comparison_of(f.b)?,
        operand: operand_of(f)?,
    })
}

// APPLY.
fn apply_of(f: Fields) -> Option<Step>
    ensures { result ≡ apply_by f.b f }
{
    let transform = match f.b {
        0 => Transform::Add(operand_of(f)?),
        1 => Transform::Sub(operand_of(f)?),
        2 => Transform::Cut(amount_of(6, f)? as u32),
        3 => Transform::Band(value::pattern::signed(amount_of(0x7fff_ffff_ffff, f)?)),
        _ => return None,
    };
    Some(Step::Apply {
        column: f.a as usize,
        transform,
    })
}

// GROUP.
fn group_of(f: Fields) -> Option<Step>
    ensures { result ≡ when (ltb f.b 5 && zeros f.d f.constant) (Group f.a (aggregate_of f.b) f.c) }
{
    let aggregate = aggregate_of(f.b)?;
    zeros(f.d, f.constant).then_some(Step::Group {
        keys: f.a as u32,
        aggregate,
        column: f.c as usize,
    })
}

// The step of a record.
#[tactic(auto, using(crate::proofs::Tests::or_2, crate::proofs::Tests::or_3, crate::proofs::Tests::or_4), unfolding(crate::specs::Record::step_of))]
fn step_of(f: Fields) -> Option<Step>
    ensures { result ≡ step_of f }
{
    if f.spare != 0 {
        return None;
    }
    match f.kind {
        1 => zeros(f.b | f.c | f.d, f.constant).then_some(Step::Scan {
            table: f.a as usize,
        }),
        2 => zeros(f.a | f.b | f.c | f.d, f.constant).then_some(Step::Union),
        3 => zeros(f.c | f.d, f.constant).then_some(Step::Join {
            left: f.a as usize,
            right: f.b as usize,
        }),
        4 => filter_of(f),
        5 => {
            let fits = f.a != 0 && zeros(f.b | f.c | f.d, f.constant);
            fits.then_some(Step::Keep { mask: f.a as u32 })
        }
        6 => apply_of(f),
        7 => group_of(f),
        8 => zeros(f.b | f.c | f.d, f.constant).then_some(Step::Noise {
            column: f.a as usize,
        }),
        _ => None,
    }
}

// The step of the record at an index. A byte past the plan's end counts as 0, and no kind is 0.
pub fn found_at(plan: &[u8], step: usize) -> Option<Step>
    ensures { result ≡ step_of (fields_at plan.now step) }
{
    if step <= plan.len() / 16 {
        step_of(fields_at(plan, step))
    } else {
        None
    }
}
