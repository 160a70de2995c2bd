// FILTER: the rows of the top table that pass a comparison, in order.
ghost use Rattle.std.specs.Prelude.{◌≡◌, true, ℕ, ◌+◌, ◌<◌, pos, length, get_or};
ghost use Rattle.plan.specs.Masks.{in_mask};
ghost use Rattle.plan.specs.declared.Comparison.{Comparison};
ghost use Rattle.plan.specs.declared.Step.TheVariants.{Filter};
ghost use Rattle.plan.specs.Filter as spec;
ghost use Rattle.plan.specs.Supply.{Supply};
ghost use Rattle.plan.specs.Widths.{operand_column_exists};
ghost use Rattle.cells.specs.promises.Lent.{SameCells, memory_held};
ghost use Rattle.memory.specs.promises.Stack.{Inside, MarksInside};
ghost use Rattle.memory.specs.promises.Steps.{Done};
ghost use Rattle.operand.specs.promises.Operands.{operand_at};
ghost use Rattle.filter.specs.promises.Filtering as here;

use cells::LentCells;
use memory::{LiveTable, MARK_ROOM, Refusal, Stack, StepError};
use plan::{Comparison, Operand, Step};

// The test of a row: a comparison of the value in a column with the operand.
#[derive(Clone, Copy)]
struct Test {
    column: usize,
    comparison: Comparison,
    operand: Operand,
}

// Keeps the rows of the top table in which the comparison of a column with the operand holds. The last three are the fields of the step.
pub fn filter(
    cells: &mut LentCells,
    marks: &mut [u64],
    stack: Stack,
    column: usize,
    comparison: Comparison,
    operand: Operand,
) -> Result<Stack, StepError>
    ensures done { (supply : Supply) → Done (Filter column comparison operand) supply (memory_held cells.old marks.old) stack result
        (memory_held cells.new marks.new) }
    ensures same { SameCells cells.old cells.new }
{
    if marks.len() < MARK_ROOM {
        return Err(StepError::DoesNotFit);
    }
    let step = Step::Filter {
        column,
        comparison,
        operand,
    };
    let columns = memory::fit(cells.values.len(), cells.labels.len(), stack, step)?;
    let top = memory::live_table(stack, 0);
    let test = Test {
        column,
        comparison,
        operand,
    };
    let read = test.read_by();
    // Lent as a `&mut`: of a field lent as a `&` the proof would know the length alone afterwards.
    let labels = &mut *cells.labels;
    if let Some(at) = search::not_clear(labels, top.area(), read)? {
        return Err(StepError::Refused(Refusal::NotClear(at)));
    }
    let kept = filter_rows(cells, marks, top, test);
    Ok(memory::with_table(stack, top.slot, columns, kept))
}

// Moves the rows that pass to the front, and answers how many there are.
fn filter_rows(cells: &mut LentCells, marks: &mut [u64], top: LiveTable, test: Test) -> usize
    requires inside { Inside top (length cells.old.values.now) (length cells.old.labels.now)
        × MarksInside top (length marks.old) }
    requires column_lt_columns { (test.column < top.columns) × (operand_column_exists test.operand top.columns ≡ true) }
    ensures done { here.Filtered top (spec.passes test.column test.comparison test.operand) (memory_held cells.old marks.old) result
        (memory_held cells.new marks.new) }
    ensures same { SameCells cells.old cells.new }
{
    let mut kept = 0;
    for row in 0..top.rows {
        let from = top.at + row * top.columns;
        if test.passes(cells, from) {
            let to = top.at + kept * top.columns;
            moves::move_cells(cells, from, to, top.columns);
            marks[top.marks + kept] = marks[top.marks + row];
            kept += 1;
        }
    }
    kept
}

impl Test {
    // The columns that are read, as a mask.
    fn read_by(self) -> u32
        requires { (self.column < 8) × (operand_column_exists self.operand 8 ≡ true) }
        ensures { (c : ℕ) → c < 8 → in_mask result c ≡ spec.read_by self.column self.operand c }
    {
        match self.operand {
            Operand::Constant(_) => 1 << self.column,
            Operand::Column(other) => 1 << self.column | 1 << other,
        }
    }

    // Whether the comparison holds in the row whose first value stands at `from`.
    fn passes(self, cells: &LentCells, from: usize) -> bool
        requires { from + self.column < length cells.now.values.now }
        ensures { result ≡ spec.holds self.comparison (get_or cells.now.values.now (from + self.column) (pos 0))
            (operand_at cells.now.values.now from self.operand) }
    {
        let first = cells.values[from + self.column];
        let second = operand::operand_at(cells.values, from, self.operand);
        holds(self.comparison, first, second)
    }
}

fn holds(comparison: Comparison, a: i64, b: i64) -> bool
    ensures { result ≡ spec.holds comparison a b }
{
    match comparison {
        Comparison::Equal => comparison::equal(a, b),
        Comparison::Unequal => comparison::unequal(a, b),
        Comparison::Less => comparison::less(a, b),
        Comparison::AtMost => comparison::at_most(a, b),
        Comparison::Greater => comparison::greater(a, b),
        Comparison::AtLeast => comparison::at_least(a, b),
    }
}
