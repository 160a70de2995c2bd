// The new cell of a row.
ghost use Rattle.std.specs.Prelude.{◌≡◌};
ghost use Rattle.apply.specs.promises.Making as spec;

use extension::NewCell;
use plan::Transform;

// What a transform makes of a row.
#[derive(Clone, Copy)]
pub struct Applied {
    pub transform: Transform,
}

impl NewCell for Applied {
    ghost new_value = { λ applied number first row. spec.value_at first row applied.transform };

    ghost new_label = { λ applied word. spec.label_at word applied.transform };

    fn value(&self, _number: usize, first: i64, row: &[i64]) -> i64 {
        new_value(first, row, self.transform)
    }

    // By the label library. A label on which the transform is forbidden stays as it is.
    fn label(&self, word: u32) -> u32 {
        apply_refusal::discharged(word, self.transform).unwrap_or(word)
    }
}

// The value that a transform makes of a first operand and the values of its row.
fn new_value(first: i64, row: &[i64], transform: Transform) -> i64
    ensures { result ≡ spec.value_at first row.now transform }
{
    match transform {
        Transform::Add(operand) => arithmetic::plus(first, operand::operand_at(row, 0, operand)),
        Transform::Sub(operand) => arithmetic::minus(first, operand::operand_at(row, 0, operand)),
        Transform::Cut(digits) => arithmetic::cut(digits, first),
        Transform::Band(width) => arithmetic::band(width, first),
    }
}
