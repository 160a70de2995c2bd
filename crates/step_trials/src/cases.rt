// The case of a line, by the words before its colon. Nothing compares two of the types here.
ghost use Rattle.std.specs.Prelude.{◌≡◌, unwrap_or};
ghost use Rattle.step_trials.specs.Words.{short_of, part_of};

use crate::reading::{bits, count, first, number, part, short};
use plan::{Aggregate, Comparison, Operand, Step, Transform};
use value::pattern::signed;

// A step, SCAN with the bytes of its container; a NOISE of a column, with its draws; or a container, stages left, first OVER, a trace line, so many
// values from a place on as an output, or memory set to zero.
#[derive(Drop)]
pub enum Case<'a> {
    Step(Step, &'a [u8]),
    Noise(usize, &'a [i64]),
    Container(&'a [u8]),
    StagesLeft,
    FirstOver,
    Line(usize),
    Output(usize, usize),
    Clear,
}

// What the words before a colon look like. There a `#` stands for a number, a `*` for a word that is read later.
#[derive(Clone, Copy)]
enum Shape {
    Union,
    Join,
    Keep,
    FilterByColumn,
    ApplyColumn,
    Filter,
    Cut,
    Apply,
    Group,
    Scan,
    Container,
    StagesLeft,
    FirstOver,
    Line,
    Output,
    Clear,
    Noise,
}

fn shape_of(head: &[u8]) -> Option<Shape> {
    first(
        head,
        &[
            ("UNION", Shape::Union),
            ("JOIN # = #", Shape::Join),
            ("KEEP #", Shape::Keep),
            ("FILTER # * column #", Shape::FilterByColumn),
            ("APPLY # * column #", Shape::ApplyColumn),
            ("FILTER # * *", Shape::Filter),
            ("APPLY # cut #", Shape::Cut),
            ("APPLY # * *", Shape::Apply),
            ("GROUP # * #", Shape::Group),
            ("SCAN # of # bytes", Shape::Scan),
            ("container *", Shape::Container),
            ("stages left", Shape::StagesLeft),
            ("first OVER", Shape::FirstOver),
            ("line #", Shape::Line),
            ("output of # from #", Shape::Output),
            ("clear#", Shape::Clear),
            ("NOISE # with *", Shape::Noise),
        ],
    )
}

// Reads a case, with the last line that has a container; or nothing, where a word can't be read. Its bytes and draws stand in what is lent.
pub fn read<'a>(
    line: &[u8],
    container: &[u8],
    bytes: &'a mut [u8],
    numbers: &'a mut [i64],
) -> Option<Case<'a>> {
    let head = part(line, b':', 0);
    match shape_of(head)? {
        Shape::Scan => {
            let step = Step::Scan {
                table: field(head, 1),
            };
            let bytes = decode(part(container, b' ', 1), field(head, 3), bytes)?;
            Some(Case::Step(step, bytes))
        }
        Shape::Container => {
            let digits = part(line, b' ', 1);
            let bytes = decode(digits, digits.len() / 2, bytes)?;
            Some(Case::Container(bytes))
        }
        Shape::Noise => {
            let draws = draws(part(head, b' ', 3), numbers)?;
            Some(Case::Noise(field(head, 1), draws))
        }
        Shape::StagesLeft => Some(Case::StagesLeft),
        Shape::FirstOver => Some(Case::FirstOver),
        Shape::Line => Some(Case::Line(field(head, 1))),
        Shape::Output => Some(Case::Output(field(head, 2), field(head, 4))),
        Shape::Clear => Some(Case::Clear),
        shape => Some(Case::Step(step(shape, head)?, &[])),
    }
}

// So many bytes, of two digits each; at most as many as there is room for.
fn decode<'a>(digits: &[u8], count: usize, room: &'a mut [u8]) -> Option<&'a [u8]> {
    let bytes = room.get_mut(..count)?;
    let pairs = digits.chunks_exact(2);
    if pairs.len() < count {
        return None;
    }
    for (byte, pair) in bytes.iter_mut().zip(pairs) {
        *byte = u8::try_from(number(16, pair)?).ok()?;
    }
    Some(bytes)
}

// The draws that a word has, parted by commas, at most as many as there is room for; or none.
fn draws<'a>(word: &[u8], room: &'a mut [i64]) -> Option<&'a [i64]> {
    if word == b"none".as_slice() {
        return Some(&[]);
    }
    let draws = room.get_mut(..=count(word, b','))?;
    for (draw, text) in draws.iter_mut().zip(word.split(|byte| *byte == b',')) {
        *draw = signed(bits(text)?);
    }
    Some(draws)
}

// The number that a word is, where the shape has one there.
fn field(head: &[u8], index: usize) -> usize
    ensures { result ≡ unwrap_or (short_of 10 (part_of 32 index head.now)) 0 }
{
    short(10, part(head, b' ', index)).unwrap_or(0) as usize
}

// The step of a shape, but for SCAN and NOISE.
fn step(shape: Shape, head: &[u8]) -> Option<Step> {
    let column = field(head, 1);
    match shape {
        Shape::Union => Some(Step::Union),
        Shape::Join => Some(Step::Join {
            left: column,
            right: field(head, 3),
        }),
        Shape::Keep => Some(Step::Keep {
            mask: short(10, part(head, b' ', 1))?,
        }),
        Shape::FilterByColumn => filter(head, Operand::Column(field(head, 4))),
        Shape::Filter => filter(head, Operand::Constant(constant(head)?)),
        Shape::ApplyColumn => apply(head, Operand::Column(field(head, 4))),
        Shape::Apply => apply(head, Operand::Constant(constant(head)?)),
        Shape::Cut => Some(Step::Apply {
            column,
            transform: Transform::Cut(short(10, part(head, b' ', 3))?),
        }),
        Shape::Group => Some(Step::Group {
            keys: short(10, part(head, b' ', 1))?,
            aggregate: aggregate(part(head, b' ', 2))?,
            column: field(head, 3),
        }),
        _ => None,
    }
}

fn constant(head: &[u8]) -> Option<i64> {
    bits(part(head, b' ', 3)).map(signed)
}

fn filter(head: &[u8], operand: Operand) -> Option<Step> {
    Some(Step::Filter {
        column: field(head, 1),
        comparison: comparison(part(head, b' ', 2))?,
        operand,
    })
}

fn apply(head: &[u8], operand: Operand) -> Option<Step> {
    let transform = match (part(head, b' ', 2), operand) {
        (b"add", operand) => Transform::Add(operand),
        (b"sub", operand) => Transform::Sub(operand),
        (b"band", Operand::Constant(width)) => Transform::Band(width),
        _ => return None,
    };
    Some(Step::Apply {
        column: field(head, 1),
        transform,
    })
}

fn comparison(word: &[u8]) -> Option<Comparison> {
    match word {
        b"=" => Some(Comparison::Equal),
        b"!=" => Some(Comparison::Unequal),
        b"<" => Some(Comparison::Less),
        b"<=" => Some(Comparison::AtMost),
        b">" => Some(Comparison::Greater),
        b">=" => Some(Comparison::AtLeast),
        _ => None,
    }
}

fn aggregate(word: &[u8]) -> Option<Aggregate> {
    match word {
        b"count" => Some(Aggregate::Count),
        b"sum" => Some(Aggregate::Sum),
        b"min" => Some(Aggregate::Min),
        b"max" => Some(Aggregate::Max),
        b"avg" => Some(Aggregate::Avg),
        _ => None,
    }
}
