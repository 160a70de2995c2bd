// Work memory as a run leaves it.
#![tactic(auto)]

ghost use Rattle.std.specs.Prelude.{◌≡◌, ◌≤◌, length};
ghost use Rattle.cells.specs.promises.Lent.{memory_held, SameCells};
ghost use Rattle.zeros.specs.Zeros.{filled};
ghost use Rattle.zeros.specs.promises.Zeros.{Cleared};

use cells::LentCells;

// Sets the first 8,192 elements of values and labels and the first 1,024 marks to zero, and answers true. Where a slice is shorter it
// changes nothing.
pub fn clear_memory(cells: &mut LentCells, marks: &mut [u64]) -> bool
    ensures done { Cleared (memory_held cells.old marks.old) result (memory_held cells.new marks.new) }
    ensures same { SameCells cells.old cells.new }
{
    if cells.values.len() < 8192 || cells.labels.len() < 8192 || marks.len() < 1024 {
        return false;
    }
    fill_first(cells.values, 8192, 0);
    fill_first(cells.labels, 8192, 0);
    fill_first(marks, 1024, 0);
    true
}

// Sets the first elements of a slice. Its own function, since of a part of a struct's slice a proof learns no more than the length.
#[tactic(auto, unfolding(crate::specs::Zeros::filled))]
fn fill_first<T: Copy>(items: &mut [T], count: usize, item: T)
    requires { (count ≤ length items.old) × T.is_infallible item × ((y : T) → T.is_clone item y → y ≡ item) }
    ensures { items.new ≡ filled count item items.old }
{
    items[..count].fill(item);
}
