// SCAN: a table of the container, pushed.
ghost use Rattle.std.specs.Prelude.{◌≡◌, List, ℤ, length};
ghost use Rattle.cells.specs.promises.Lent.{memory_held, SameCells};
ghost use Rattle.container.specs.Contents.{tables_of};
ghost use Rattle.memory.specs.promises.Steps.{DoneWhere};
ghost use Rattle.plan.specs.Supply.{supplied};
ghost use Rattle.plan.specs.declared.Step.TheVariants.{Scan};
ghost use Rattle.scan.specs.promises.Scanning as spec;

use cells::LentCells;
use little_endian::byte;
use mark_reader::read_marks;
use memory::{MARK_ROOM, MARK_SLOT, SLOT, Stack, StepError};
use table_reader::read_cells;

// Pushes a table of the container.
pub fn scan(
    container: &[u8],
    cells: &mut LentCells,
    marks: &mut [u64],
    stack: Stack,
    table: usize,
) -> Result<Stack, StepError>
    ensures done { (draws : List ℤ) → DoneWhere (spec.scan_fits container.now table (length cells.old.values.now)
        (length cells.old.labels.now) (length marks.old) stack) (Scan table)
        (supplied (tables_of container.now) draws) (memory_held cells.old marks.old) stack result (memory_held cells.new marks.new) }
    ensures same { SameCells cells.old cells.new }
{
    if !scan_fits(container, cells, marks, stack, table) {
        return Err(StepError::DoesNotFit);
    }
    let slot = stack.depth;
    let part = layout::part(container, table + 1);
    let shape = read_cells(part, cells, SLOT * slot).ok_or(StepError::DoesNotFit)?;
    read_marks(part, table, marks, MARK_SLOT * slot);
    Ok(memory::with_table(stack, slot, shape.columns, shape.rows))
}

// Whether the slices and the stack fit, and the container has the table, with cells that fit a slot.
#[tactic(auto, using(crate::proofs::Tables::table_fits_is))]
fn scan_fits(container: &[u8], cells: &LentCells, marks: &[u64], stack: Stack, table: usize) -> bool
    ensures { result ≡ spec.scan_fits container.now table (length cells.now.values.now)
        (length cells.now.labels.now) (length marks.now) stack }
{
    MARK_ROOM <= marks.len()
        && memory::ready(cells.values.len(), cells.labels.len(), stack)
        && stack.depth < 3
        && table < layout::part_count(container).saturating_sub(1)
        && cells_fit(layout::part(container, table + 1))
}

// Whether a table part has at most 256 rows and 8 columns, the column that byte 1 names, and the bytes of all its cells.
#[tactic(auto, unfolding(table_part::specs::promises::Shape::shape_of))]
fn cells_fit(part: &[u8]) -> bool
    ensures { result ≡ spec.cells_fit part.now }
{
    let shape = table_part::shape_of(part);
    shape.columns <= 8
        && shape.rows <= 256
        && byte(part, 1) as usize <= shape.columns
        && 4 + 12 * (shape.rows * shape.columns) <= part.len()
}
