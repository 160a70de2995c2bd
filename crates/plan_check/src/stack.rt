// The stack of the plan check: what a step asks of the tables on it, and what it leaves there, by their widths alone.
ghost use Rattle.std.specs.Prelude.{◌≡◌, ◌≤◌, ◌<◌, ◌+◌, [], ◌∷◌, length, get_or, drop};
ghost use Rattle.plan_check.specs.promises.Stack.{made_on};

use plan::Step;
use std::marker::Model;

// The widths of the tables on the stack, the last pushed first, in an array of three: no heap on the path of a run. Nothing compares two of them.
#[derive(Drop)]
pub struct Widths {
    depth: usize,
    columns: [usize; 3],
}

impl Model for Widths {
    ghost use Rattle.std.specs.Prelude.{ℕ, ◌≤◌, List, take, get_or};

    ghost Value = { List ℕ };

    ghost view = { λ stack. take stack.depth stack.columns };

    // At most three tables, none wider than 8 columns.
    ghost invariant = { λ stack. (stack.depth ≤ 3) × ((place : ℕ) → get_or stack.columns place 0 ≤ 8) };
}

impl Widths {
    // A stack of no tables.
    pub fn new() -> Widths
        ensures { result ≡ [] }
    {
        Widths {
            depth: 0,
            columns: [0; 3],
        }
    }

    // How many tables there are.
    pub fn len(&self) -> usize
        ensures value { result ≡ length self.now }
        ensures few { result ≤ 3 }
    {
        self.depth
    }

    // The width of the table at a place, 0 where there is none.
    fn width(&self, place: usize) -> usize
        ensures value { result ≡ get_or self.now place 0 }
        ensures narrow { result ≤ 8 }
    {
        if place < self.depth {
            self.columns[place]
        } else {
            0
        }
    }

    // Takes so many tables off the stack, and pushes one so wide.
    pub fn push(&mut self, taken: usize, made: usize)
        requires { (taken ≤ length self.old) × (length self.old < taken + 3) × (made ≤ 8) }
        ensures { self.new ≡ made ∷ drop taken self.old }
    {
        let depth = self.depth;
        self.columns = [made, self.width(taken), self.width(taken + 1)];
        self.depth = depth - taken + 1;
    }

    // 19: the columns of the table that a step makes, if its table and columns exist and it makes at most 8.
    pub fn made_width(&self, step: Step, tables: &[usize]) -> Option<usize>
        ensures { result ≡ made_on step tables.now self.now }
    {
        widths::made_width(step, tables, self.width(1), self.width(0))
    }
}
