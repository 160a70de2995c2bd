// The tables of a case, put into work memory of its own. Nothing compares two of the types here.
ghost use Rattle.std.specs.Prelude.{◌≡◌};
ghost use Rattle.step_trials.specs.Meanings.{word_of};

use crate::reading::{bits, count, number, part, short};
use cells::LentCells;
use memory::{LiveTable, Stack, live_table, no_tables, with_table};
use value::pattern::signed;

// What stands between tables: a table of so many columns, a cell with the bits of its value and its label, a number, or a word by its name.
#[derive(Clone, Copy)]
pub enum Word {
    Columns(u64),
    Cell(u64, u32),
    Count(u32),
    Values,
    Labels,
    Marks,
    More,
    Other,
}

// What a word is by its bar or its colon, or else by its name; or none, where it can't be read.
#[tactic(auto, unfolding(crate::specs::Meanings::word_of))]
fn meaning(text: &[u8], named: Option<Word>) -> Option<Word>
    ensures { result ≡ word_of text.now named }
{
    if count(text, b'|') == 1 {
        return number(10, part(text, b'|', 0)).map(Word::Columns);
    }
    if count(text, b':') == 1 {
        let bits = bits(part(text, b':', 0))?;
        let label = short(16, part(text, b':', 1))?;
        return Some(Word::Cell(bits, label));
    }
    named
}

fn name(text: &[u8]) -> Option<Word> {
    match text {
        b"values," => Some(Word::Values),
        b"labels," => Some(Word::Labels),
        b"marks," => Some(Word::Marks),
        b"more" => Some(Word::More),
        b"/" | b".." | b"of" | b"rows" | b"no" | b"tables" | b"one" => Some(Word::Other),
        _ => short(10, text).map(Word::Count),
    }
}

// How many values, labels and marks of work memory are lent, where there are as many.
#[derive(Clone, Copy)]
pub struct Lent {
    pub values: usize,
    pub labels: usize,
    pub marks: usize,
}

// Work memory, the stack of the tables in it, and how much of it is lent. Arrays with lengths beside them, since the program calls no allocator.
#[derive(Drop)]
pub struct Work {
    values: [i64; 8200],
    labels: [u32; 8200],
    marks: [u64; 1032],
    pub stack: Stack,
    pub lent: Lent,
}

impl Work {
    // More than a step uses.
    pub fn new() -> Work {
        Work {
            values: [0; 8200],
            labels: [0; 8200],
            marks: [0; 1032],
            stack: no_tables(),
            lent: Lent {
                values: 8200,
                labels: 8200,
                marks: 1032,
            },
        }
    }

    pub fn values(&self) -> &[i64] {
        &self.values[..self.lent.values.min(8200)]
    }

    pub fn labels(&self) -> &[u32] {
        &self.labels[..self.lent.labels.min(8200)]
    }

    // The cells and the marks, as they are lent to a step.
    pub fn lend(&mut self) -> (LentCells<'_>, &mut [u64]) {
        let lent = self.lent;
        let (values, labels, marks) = (&mut self.values, &mut self.labels, &mut self.marks);
        let cells = LentCells {
            values: &mut values[..lent.values.min(8200)],
            labels: &mut labels[..lent.labels.min(8200)],
        };
        (cells, &mut marks[..lent.marks.min(1032)])
    }

    // Puts a cell at a place, and in all places behind it too.
    fn put(&mut self, at: usize, value: i64, label: u32) {
        if let Some(values) = self.values.get_mut(at..) {
            values.fill(value);
        }
        if let Some(labels) = self.labels.get_mut(at..) {
            labels.fill(label);
        }
    }

    // The table on top has so many rows, where it has columns.
    fn rows(&mut self, top: LiveTable, rows: usize) {
        if 0 < top.columns {
            self.stack = with_table(self.stack, top.slot, top.columns, rows);
        }
    }

    // Reads a word behind so many cells of the table on top, and answers how many these are then.
    fn read(&mut self, word: Word, cells: usize) -> usize {
        let top = live_table(self.stack, 0);
        match word {
            Word::Columns(columns) => {
                self.stack = with_table(self.stack, self.stack.depth, columns as usize, 0);
                0
            }
            Word::Cell(bits, label) => {
                self.put(top.at.wrapping_add(cells), signed(bits), label);
                let cells = cells.wrapping_add(1);
                if 0 < top.columns {
                    self.rows(top, cells / top.columns);
                }
                cells
            }
            Word::Count(rows) => {
                self.rows(top, rows as usize);
                rows as usize
            }
            Word::More => {
                self.stack.depth = 4;
                cells
            }
            Word::Values => {
                self.lent.values = cells;
                cells
            }
            Word::Labels => {
                self.lent.labels = cells;
                cells
            }
            Word::Marks => {
                self.lent.marks = cells;
                cells
            }
            Word::Other => cells,
        }
    }

    // Puts the tables of a text in, the first in slot 0, with marks of which no two are the same; or answers nothing, where a word can't be read.
    pub fn load(&mut self, text: &[u8]) -> Option<()> {
        let mut cells = 0;
        for piece in text.split_inclusive(|byte| *byte == b' ') {
            let text = part(part(piece, b' ', 0), b';', 0);
            cells = self.read(meaning(text, name(text))?, cells);
        }
        for (index, mark) in self.marks.iter_mut().enumerate() {
            *mark = index as u64;
        }
        Some(())
    }
}
