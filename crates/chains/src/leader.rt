// The first row with the keys of a row, and the next one. A group is led by its first row.
ghost use Rattle.std.specs.Prelude.{◌≡◌, ℕ, ◌≤◌, ◌<◌, length, get_or};
ghost use Rattle.chains.specs.promises.Chains as spec;
ghost use Rattle.chains.specs.promises.Leads as list;

use super::hash::key_hash;
use cells::Area;
use comparison::same;

// A row that leads a group, and the hash value of its keys.
#[derive(Clone, Copy)]
struct Lead {
    row: usize,
    hash: u64,
}

// A table in the values, and the mask of the columns that are keys.
#[derive(Clone, Copy)]
pub struct Keyed<'a> {
    pub values: &'a [i64],
    pub table: Area,
    pub keys: u32,
}

impl<'a> Keyed<'a> {
    // For each row the first row with its keys. The leads are an array with a count of those found: memory is fixed, and there is no heap.
    pub fn leaders(self) -> [usize; 256]
        requires { list.Inside self }
        ensures { spec.Led self.entry.values.now self.entry.table.at self.entry.table.rows self.entry.table.columns self.entry.keys result }
    {
        let mut found = [0usize; 256];
        let mut leads = [Lead { row: 0, hash: 0 }; 256];
        let mut count = 0;
        for row in 0..self.table.rows {
            let own = self.lead(row);
            let first = self.first_same(&leads[..count], own);
            found[row] = first;
            if first == row {
                leads[count] = own;
                count += 1;
            }
        }
        found
    }

    // The values of a row.
    fn row(self, number: usize) -> &'a [i64]
        requires { list.Inside self × (number < self.table.rows) }
        ensures { result.now ≡ list.row_values self.entry number }
    {
        let Area { at, columns, .. } = self.table;
        let place = at + number * columns;
        &self.values[place..place + columns]
    }

    // A row with the hash value of its keys.
    fn lead(self, row: usize) -> Lead
        requires { list.Inside self × (row < self.table.rows) }
        ensures { result ≡ list.lead_of self.entry row }
    {
        Lead {
            row,
            hash: key_hash(self.row(row), self.keys),
        }
    }

    // The first row with the keys of a row: one of the rows that lead groups, or the row itself. Where hash values differ, the keys are not
    // looked at.
    fn first_same(self, leads: &[Lead], own: Lead) -> usize
        requires { list.Inside self × (own.row < self.table.rows) × (own ≡ list.lead_of self own.row)
            × list.LeadsBefore self own.row leads.now (length leads.now) }
        ensures { list.FirstLead self.entry leads.now own.row result }
    {
        for lead in leads {
            if lead.hash == own.hash
                && same_keys(self.row(lead.row), self.row(own.row), self.keys)
            {
                return lead.row;
            }
        }
        own.row
    }
}

// For each row the next one with its leader; where there is none, how many rows there are.
pub fn chain(leaders: &[usize; 256], rows: usize) -> [usize; 256]
    requires { (rows ≤ 256) × (length leaders.now ≡ 256) × ((row : ℕ) → row < rows → get_or leaders.now row 0 < 256) }
    ensures { spec.Next rows leaders.now result }
{
    let mut next = [0usize; 256];
    let mut ahead = [rows; 256];
    for row in (0..rows).rev() {
        let leader = leaders[row];
        next[row] = ahead[leader];
        ahead[leader] = row;
    }
    next
}

// Whether two rows of as many columns have the same keys.
fn same_keys(first: &[i64], second: &[i64], keys: u32) -> bool
    requires { (length first.now ≤ 8) × (length second.now ≡ length first.now) }
    ensures { result ≡ list.same_values keys first.now second.now }
{
    for column in 0..first.len() {
        if (keys >> column) % 2 == 1 && !same(first[column], second[column]) {
            return false;
        }
    }
    true
}
