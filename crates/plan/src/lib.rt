// A plan's steps, as the code and the definitions of the monitor both have them. A table, a column and a mask are named by
// their numbers in the plan. What a plan means stands in specs/.
#![tactic(auto)]

// FILTER's comparisons.
#[derive(Clone, Copy, Debug, PartialEq, Eq)]
pub enum Comparison {
    Equal,
    Unequal,
    Less,
    AtMost,
    Greater,
    AtLeast,
}

// The second operand of FILTER and of APPLY's add and sub.
#[derive(Clone, Copy, Debug, PartialEq, Eq)]
pub enum Operand {
    Constant(i64),
    Column(usize),
}

// APPLY's operations; cut and band are document 01's words. A cut has its digits, a band its width.
#[derive(Clone, Copy, Debug, PartialEq, Eq)]
pub enum Transform {
    Add(Operand),
    Sub(Operand),
    Cut(u32),
    Band(i64),
}

// GROUP's aggregates.
#[derive(Clone, Copy, Debug, PartialEq, Eq)]
pub enum Aggregate {
    Count,
    Sum,
    Min,
    Max,
    Avg,
}

// The eight steps. In a mask, bit i stands for column i.
#[derive(Clone, Copy, Debug, PartialEq, Eq)]
pub enum Step {
    Scan {
        table: usize,
    },
    Union,
    Join {
        left: usize,
        right: usize,
    },
    Filter {
        column: usize,
        comparison: Comparison,
        operand: Operand,
    },
    Keep {
        mask: u32,
    },
    Apply {
        column: usize,
        transform: Transform,
    },
    Group {
        keys: u32,
        aggregate: Aggregate,
        column: usize,
    },
    Noise {
        column: usize,
    },
}
