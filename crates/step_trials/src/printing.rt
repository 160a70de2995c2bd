// A case and what its answer is made of, as they are printed. Nothing compares two of the types here.
use crate::tables::Work;
use cells::{At, DoesNotFit};
use memory::Refusal;
use plan::{Aggregate, Comparison, Operand, Step, Transform};
use std::{fmt, io};
use value::range::OVER;

// A line that can't be read.
pub fn unreadable<R: Print>(rt: &R, line: &[u8]) -> io::Result<()> {
    print!(rt; "cannot read: ")?;
    rt.write_all(line)?;
    println!(rt)
}

// A step with its fields; SCAN has so many bytes of a container.
#[derive(Clone, Copy)]
pub struct Shown {
    pub step: Step,
    pub bytes: usize,
}

impl fmt::Display for Shown {
    fn fmt<W: fmt::Write>(&self, f: &mut fmt::Formatter<W>) -> fmt::Result {
        match self.step {
            Step::Scan { table } => write!(f, "SCAN {table} of {} bytes", self.bytes),
            Step::Union => write!(f, "UNION"),
            Step::Join { left, right } => write!(f, "JOIN {left} = {right}"),
            Step::Filter {
                column,
                comparison,
                operand,
            } => write!(f, "FILTER {column} {}{}", sign(comparison), Second(operand)),
            Step::Keep { mask } => write!(f, "KEEP {mask}"),
            Step::Apply { column, transform } => write!(f, "APPLY {column}{}", Changed(transform)),
            Step::Group {
                keys,
                aggregate,
                column,
            } => write!(f, "GROUP {keys} {} {column}", summary(aggregate)),
            Step::Noise { column } => write!(f, "NOISE {column}"),
        }
    }
}

fn sign(comparison: Comparison) -> &'static str {
    match comparison {
        Comparison::Equal => "=",
        Comparison::Unequal => "!=",
        Comparison::Less => "<",
        Comparison::AtMost => "<=",
        Comparison::Greater => ">",
        Comparison::AtLeast => ">=",
    }
}

fn summary(aggregate: Aggregate) -> &'static str {
    match aggregate {
        Aggregate::Count => "count",
        Aggregate::Sum => "sum",
        Aggregate::Min => "min",
        Aggregate::Max => "max",
        Aggregate::Avg => "avg",
    }
}

// What APPLY does.
#[derive(Clone, Copy)]
struct Changed(Transform);

impl fmt::Display for Changed {
    fn fmt<W: fmt::Write>(&self, f: &mut fmt::Formatter<W>) -> fmt::Result {
        match self.0 {
            Transform::Add(operand) => write!(f, " add{}", Second(operand)),
            Transform::Sub(operand) => write!(f, " sub{}", Second(operand)),
            Transform::Cut(digits) => write!(f, " cut {digits}"),
            Transform::Band(width) => write!(f, " band{}", Value(width)),
        }
    }
}

// The second operand.
#[derive(Clone, Copy)]
struct Second(Operand);

impl fmt::Display for Second {
    fn fmt<W: fmt::Write>(&self, f: &mut fmt::Formatter<W>) -> fmt::Result {
        match self.0 {
            Operand::Constant(constant) => write!(f, "{}", Value(constant)),
            Operand::Column(column) => write!(f, " column {column}"),
        }
    }
}

// The draws of a NOISE.
#[derive(Drop)]
pub struct Draws<'a>(pub &'a [i64]);

impl fmt::Display for Draws<'_> {
    fn fmt<W: fmt::Write>(&self, f: &mut fmt::Formatter<W>) -> fmt::Result {
        let Some((first, others)) = self.0.split_first() else {
            return write!(f, " with none");
        };
        write!(f, " with {first}")?;
        for draw in others {
            write!(f, ",{draw}")?;
        }
        Ok(())
    }
}

// What a case is given: the values, labels and marks that are lent, where they are too few, and its tables.
#[derive(Drop)]
pub struct Given<'a>(pub &'a Work);

impl fmt::Display for Given<'_> {
    fn fmt<W: fmt::Write>(&self, f: &mut fmt::Formatter<W>) -> fmt::Result {
        let work = self.0;
        write!(f, ":")?;
        if work.lent.values < 8192 {
            write!(f, " {} values,", work.lent.values)?;
        }
        if work.lent.labels < 8192 {
            write!(f, " {} labels,", work.lent.labels)?;
        }
        if work.lent.marks < 1024 {
            write!(f, " {} marks,", work.lent.marks)?;
        }
        write!(f, "{work}")?;
        match work.stack.depth {
            0 => write!(f, " no tables gives"),
            1..=3 => write!(f, " gives"),
            _ => write!(f, "; one more gives"),
        }
    }
}

// The live tables.
impl fmt::Display for Work {
    fn fmt<W: fmt::Write>(&self, f: &mut fmt::Formatter<W>) -> fmt::Result {
        let stack = self.stack;
        let sizes = stack.rows.iter().zip(stack.columns.iter());
        for (slot, (rows, columns)) in sizes.take(stack.depth).enumerate() {
            if 0 < slot {
                write!(f, ";")?;
            }
            write!(f, " {columns}|")?;
            write!(
                f,
                "{}",
                Rows {
                    work: self,
                    at: slot << 11,
                    rows: *rows,
                    columns: *columns
                }
            )?;
        }
        Ok(())
    }
}

// The rows of a table at a place; of more than eight, which have one column, the first and the last, and how many there are.
#[derive(Drop)]
struct Rows<'a> {
    work: &'a Work,
    at: usize,
    rows: usize,
    columns: usize,
}

impl fmt::Display for Rows<'_> {
    fn fmt<W: fmt::Write>(&self, f: &mut fmt::Formatter<W>) -> fmt::Result {
        let (values, labels) = (self.work.values(), self.work.labels());
        let (mut at, rows, count) = (self.at, self.rows, self.columns);
        if 8 < rows {
            let last = at.wrapping_add(rows).wrapping_sub(1);
            write!(
                f,
                "{} ..",
                Cells {
                    values,
                    labels,
                    at,
                    count: 1
                }
            )?;
            write!(
                f,
                "{}",
                Cells {
                    values,
                    labels,
                    at: last,
                    count: 1
                }
            )?;
            return write!(f, " of {rows} rows");
        }
        for row in 0..rows {
            if 0 < row {
                write!(f, " /")?;
            }
            write!(
                f,
                "{}",
                Cells {
                    values,
                    labels,
                    at,
                    count
                }
            )?;
            at = at.wrapping_add(count);
        }
        Ok(())
    }
}

// So many cells from a place on.
#[derive(Drop)]
pub struct Cells<'a> {
    pub values: &'a [i64],
    pub labels: &'a [u32],
    pub at: usize,
    pub count: usize,
}

impl fmt::Display for Cells<'_> {
    fn fmt<W: fmt::Write>(&self, f: &mut fmt::Formatter<W>) -> fmt::Result {
        for index in 0..self.count {
            let at = self.at.wrapping_add(index);
            match (self.values.get(at), self.labels.get(at)) {
                (Some(value), Some(label)) => write!(f, "{}:{label:x}", Value(*value))?,
                _ => write!(f, " none")?,
            }
        }
        Ok(())
    }
}

// A value, and OVER as a word.
#[derive(Clone, Copy)]
struct Value(i64);

impl fmt::Display for Value {
    fn fmt<W: fmt::Write>(&self, f: &mut fmt::Formatter<W>) -> fmt::Result {
        let value = self.0;
        if value == OVER {
            write!(f, " OVER")
        } else {
            write!(f, " {value}")
        }
    }
}

// The refusal of a step.
#[derive(Clone, Copy)]
pub struct Refused(pub Refusal);

impl fmt::Display for Refused {
    fn fmt<W: fmt::Write>(&self, f: &mut fmt::Formatter<W>) -> fmt::Result {
        let At { row, column } = self.0.at();
        write!(f, " {} at row {row} column {column}", self.0.number())
    }
}

// What a search finds.
#[derive(Clone, Copy)]
pub struct Searched(pub Result<Option<At>, DoesNotFit>);

impl fmt::Display for Searched {
    fn fmt<W: fmt::Write>(&self, f: &mut fmt::Formatter<W>) -> fmt::Result {
        match self.0 {
            Ok(Some(at)) => write!(f, " row {} column {}", at.row, at.column),
            Ok(None) => write!(f, " nowhere"),
            Err(DoesNotFit) => write!(f, " does not fit"),
        }
    }
}
