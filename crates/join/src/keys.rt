// The labels of the keys, tested before any comparison.
ghost use Rattle.std.specs.Prelude.{◌≡◌, length};
ghost use Rattle.plan.specs.Join.{check_join};
ghost use Rattle.cells.specs.promises.Search.{place_says};
ghost use Rattle.cells.specs.promises.Search.{says};
ghost use Rattle.pairs.specs.promises.Pairs as spec;

use cells::{At, DoesNotFit, LentCells};
use pairs::Sides;

// The first key that is not clear, the left keys before the right ones. Right rows are numbered on from the left. It takes the
// cells and not their labels: a slice lent out of a `&mut` in a struct is known by its length alone after the call.
pub fn unclear_key(cells: &LentCells, sides: Sides) -> Result<Option<At>, DoesNotFit>
    requires { spec.SidesFit (length cells.now.labels.now) (length cells.now.labels.now) sides.left sides.right }
    ensures { place_says 31 0 result ≡ says
        (check_join sides.left.key sides.right.key (spec.side_labels cells.now.labels.now sides.left)
        (spec.side_labels cells.now.labels.now sides.right)) }
{
    let Sides { left, right } = sides;
    let first = search::not_clear(cells.labels, left.table.area(), 1 << left.key)?;
    if first.is_some() {
        return Ok(first);
    }
    let second = search::not_clear(cells.labels, right.table.area(), 1 << right.key)?;
    let Some(at) = second else {
        return Ok(None);
    };
    Ok(Some(At {
        row: left.table.rows + at.row,
        column: at.column,
    }))
}
