// The release of the table that a plan leaves.
#![tactic(auto)]

ghost use Rattle.std.specs.Prelude.{◌≡◌, ◌*◌, ◌≤◌};
ghost use Rattle.cells.specs.promises.Work.{work};
ghost use Rattle.release.specs.declared.ReleaseRefusal.TheVariants as refusal;
ghost use Rattle.release.specs.promises.Release.{refusal_of, room_reply, release_reply, Releases};

use cells::{Area, At, DoesNotFit};
use csv_writer::WritingError;

// Why a table is not released: 35 or 36 at a cell; 51, where the text has no room; or that there is no table of that size in the slices, or no
// room for it in the output.
#[derive(Clone, Copy, PartialEq, Eq, Debug)]
pub enum ReleaseRefusal {
    StageLeft(At),
    Over(At),
    NoRoom,
    DoesNotFit,
}

impl From<DoesNotFit> for ReleaseRefusal {
    ghost from_gives = { λ wrong made. made ≡ refusal.DoesNotFit };

    fn from(_wrong: DoesNotFit) -> ReleaseRefusal {
        ReleaseRefusal::DoesNotFit
    }
}

impl From<WritingError> for ReleaseRefusal {
    ghost from_gives = { λ wrong made. made ≡ refusal_of wrong };

    fn from(wrong: WritingError) -> ReleaseRefusal {
        match wrong {
            WritingError::TooShort => ReleaseRefusal::NoRoom,
            WritingError::NoTable => ReleaseRefusal::DoesNotFit,
        }
    }
}

// Releases the table of so many rows and columns at the start of work memory: writes its values to the output's start and its text to the
// start of its slice if every cell is clear, none is OVER and the text has room, and answers the bytes of the text. Else both stay as they
// are.
pub fn release(
    values: &[i64],
    labels: &[u32],
    output: &mut [i64],
    text: &mut [u8],
    rows: usize,
    columns: usize,
) -> Result<usize, ReleaseRefusal>
    ensures { Releases (release_reply (work values.now labels.now) output.old text.old rows columns)
        values.now output.old text.old rows columns result output.new text.new }
{
    let table = Area {
        at: 0,
        rows,
        columns,
    };
    if let Some(at) = search::not_clear(labels, table, 255)? {
        return Err(ReleaseRefusal::StageLeft(at));
    }
    if let Some(at) = table_values::first_over(values, table)? {
        return Err(ReleaseRefusal::Over(at));
    }
    write_table(values, output, text, rows, columns)
}

// Writes a table's text and then its values, where both have room, and answers the bytes of the text.
fn write_table(
    values: &[i64],
    output: &mut [i64],
    text: &mut [u8],
    rows: usize,
    columns: usize,
) -> Result<usize, ReleaseRefusal>
    requires { rows * columns ≤ 2048 }
    ensures { Releases (room_reply values.now output.old text.old rows columns)
        values.now output.old text.old rows columns result output.new text.new }
{
    let count = rows * columns;
    if output.len() < count {
        return Err(ReleaseRefusal::DoesNotFit);
    }
    let bytes = csv_writer::write_text(values, rows, columns, text)?;
    table_values::copy_out(values, 0, count, output);
    Ok(bytes)
}
