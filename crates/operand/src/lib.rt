// The second operand of FILTER and APPLY: a constant, or a column of the row.
#![tactic(auto)]

ghost use Rattle.std.specs.Prelude.{◌≡◌, ◌+◌, pos, get_or};
ghost use Rattle.operand.specs.promises.Operands as spec;

use plan::Operand;

// The operand's value in the row whose first value stands at `from`; 0 where the values end before its column.
pub fn operand_at(values: &[i64], from: usize, operand: Operand) -> i64
    ensures { result ≡ spec.operand_at values.now from operand }
{
    match operand {
        Operand::Constant(value) => value,
        Operand::Column(column) => value_at(values, from, column),
    }
}

fn value_at(values: &[i64], from: usize, column: usize) -> i64
    ensures { result ≡ get_or values.now (from + column) (pos 0) }
{
    let Some(row) = values.get(from..) else {
        return 0;
    };
    row.get(column).copied().unwrap_or(0)
}
