// The bytes of the new container, and the offsets of the labels changed.
ghost use Rattle.std.specs.Prelude.{◌≡◌, ◌+◌, ◌*◌, ◌≤◌, ◌++◌, length, drop};
ghost use Rattle.container.specs.Check.{accepted};
ghost use Rattle.conversion.specs.Conversion.{check_before, one_at, ones_among, changed_labels};
ghost use Rattle.conversion.specs.promises.Raising.{Raised};
ghost use Rattle.table_part.specs.TablePart.{label_place, cell_count};

use layout::{part, part_count, part_offset};
use little_endian::four;
use table_part::cell_count;

// Copies bytes to the start of a slice that has room for them. By a loop, as `table_values::copy_out`.
pub fn copy(bytes: &[u8], new: &mut [u8])
    requires { length bytes.now ≤ length new.old }
    ensures { new.new ≡ bytes.now ++ drop (length bytes.now) new.old }
{
    for i in 0..bytes.len() {
        new[i] = bytes[i];
    }
}

// Raises the label of a cell in the new container, if its minimum is 1, and writes its offset after the first `count`. Answers how many
// offsets there are then. The table part begins at `at`. The two slices and the count stay parameters: the clauses of a struct that holds lent slices
// would be over its entry and its exit, and no plainer.
fn raise_label(
    table: &[u8],
    at: usize,
    cell: usize,
    new: &mut [u8],
    offsets: &mut [u32],
    count: usize,
) -> usize
    requires { (at + label_place cell + 4 ≤ 65536) × (at + label_place cell + 4 ≤ length new.old) × (count + 1 ≤ length offsets.old) × (count ≤ 65536) }
    ensures { Raised (one_at table.now at cell) count new.old offsets.old result new.new offsets.new }
{
    let place = 4 + 12 * cell + 8;
    if label_words::field(four(table, place), 0, 10) != 1 {
        return count;
    }
    new[at + place] = 2;
    offsets[count] = (at + place) as u32;
    count + 1
}

// The same of each cell of a table part.
fn raise_table(table: &[u8], at: usize, new: &mut [u8], offsets: &mut [u32], count: usize) -> usize
    requires { (length table.now ≡ 4 + 12 * cell_count table.now) × (at + length table.now ≤ 65536) × (at + length table.now ≤ length new.old)
        × (12 * count ≤ at) × (8192 ≤ length offsets.old) }
    ensures { Raised (ones_among table.now at 0 (cell_count table.now)) count new.old offsets.old result
        new.new offsets.new }
{
    let mut found = count;
    for cell in 0..cell_count(table) as usize {
        found = raise_label(table, at, cell, new, offsets, found);
    }
    found
}

// The same of each table of a container. Answers how many labels were changed.
pub fn raise_tables(container: &[u8], new: &mut [u8], offsets: &mut [u32]) -> usize
    requires { (check_before container.now ≡ accepted) × (length container.now ≤ length new.old) × (8192 ≤ length offsets.old) }
    ensures { Raised (changed_labels container.now) 0 new.old offsets.old result new.new offsets.new }
{
    let mut found = 0;
    for index in 1..part_count(container) {
        found = raise_table(
            part(container, index),
            part_offset(container, index) as usize,
            new,
            offsets,
            found,
        );
    }
    found
}
