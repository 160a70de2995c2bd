// The columns that a step needs and makes, by the widths of tables alone.
ghost use Rattle.std.specs.Prelude.{◌≡◌, true, [], ◌∷◌, ◌≤◌};
ghost use Rattle.plan.specs.Keep.{kept_count};
ghost use Rattle.plan.specs.Widths as spec;
ghost use Rattle.widths.specs.promises.Widths.{made_width};

use plan::{Operand, Step, Transform};

// 19: the columns of the table that a step makes, over tables of at most 8 columns; none where a table or column that it names does not
// exist, two widths are unequal, or it would make over 8 columns. `tables` are the widths of the container's tables, `right` is the width of
// the last table pushed, and `left` of the one before it, 0 where there is none.
pub fn made_width(step: Step, tables: &[usize], left: usize, right: usize) -> Option<usize>
    ensures { result ≡ made_width step tables.now left right }
{
    if 8 < left || 8 < right || !columns_exist(step, tables, left, right) {
        return None;
    }
    let columns = made_columns(step, tables, left, right);
    if 8 < columns {
        return None;
    }
    Some(columns)
}

// Whether the table and the columns that a step names exist.
#[tactic(auto, unfolding(plan::specs::Widths::columns_exist))]
fn columns_exist(step: Step, tables: &[usize], left: usize, right: usize) -> bool
    requires { right ≤ 8 }
    ensures { result ≡ spec.columns_exist step tables.now (right ∷ left ∷ []) }
{
    match step {
        Step::Scan { table } => table < tables.len(),
        Step::Union => left == right,
        Step::Join { left: a, right: b } => (a < left) & (b < right),
        Step::Filter {
            column,
            operand,
            ..
        } => (column < right) & operand_within(operand, right),
        Step::Keep { mask } => mask_fits(mask, right),
        Step::Apply { column, transform } => (column < right) & transform_within(transform, right),
        Step::Group { keys, column, .. } => mask_fits(keys, right) & (column < right),
        Step::Noise { column } => column < right,
    }
}

// The columns of the table that a step makes, where the columns that it names exist.
#[tactic(auto, unfolding(plan::specs::Widths::made_columns))]
fn made_columns(step: Step, tables: &[usize], left: usize, right: usize) -> usize
    requires { (left ≤ 8) × (right ≤ 8) × (spec.columns_exist step tables.now (right ∷ left ∷ []) ≡ true) }
    ensures { result ≡ spec.made_columns step tables.now (right ∷ left ∷ []) }
{
    match step {
        Step::Scan { table } => tables[table],
        Step::Union => left,
        Step::Join { .. } => left + (right - 1),
        Step::Filter { .. } => right,
        Step::Keep { mask } => kept_count(mask, right),
        Step::Apply { .. } => right + 1,
        Step::Group { keys, .. } => kept_count(keys, right) + 1,
        Step::Noise { .. } => right + 1,
    }
}

// Whether a mask has no bit past the columns.
fn mask_fits(mask: u32, width: usize) -> bool
    requires { width ≤ 8 }
    ensures { result ≡ spec.mask_fits mask width }
{
    mask < 1 << width
}

// How many of the columns are in a mask.
fn kept_count(mask: u32, width: usize) -> usize
    requires { width ≤ 8 }
    ensures { result ≡ kept_count mask width }
{
    let mut count = 0;
    for column in 0..width {
        count += ((mask >> column) % 2) as usize;
    }
    count
}

// Whether a second operand is within the columns.
fn operand_within(operand: Operand, width: usize) -> bool
    ensures { result ≡ spec.operand_column_exists operand width }
{
    match operand {
        Operand::Constant(_) => true,
        Operand::Column(column) => column < width,
    }
}

// The same for the operand of an APPLY.
fn transform_within(transform: Transform, width: usize) -> bool
    ensures { result ≡ spec.transform_column_exists transform width }
{
    match transform {
        Transform::Add(operand) | Transform::Sub(operand) => operand_within(operand, width),
        Transform::Cut(_) | Transform::Band(_) => true,
    }
}
