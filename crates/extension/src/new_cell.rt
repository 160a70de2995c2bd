// What a step that appends a column makes of a row.
ghost use Rattle.std.specs.Prelude.{◌≡◌, ℕ, ℤ, List};

// The new cell of a row, made of one of its columns. No closure, whose call would ask for a `requires`: no open function has one (README.md).
pub trait NewCell {
    // by the row's number, the value in the column and the row's values
    ghost new_value: { Self → ℕ → ℤ → List ℤ → ℤ };

    // by the label in the column
    ghost new_label: { Self → ℕ → ℕ };

    // Its value.
    fn value(&self, number: usize, first: i64, row: &[i64]) -> i64
        ensures { result ≡ new_value self.now number first row.now };

    // Its label.
    fn label(&self, word: u32) -> u32
        ensures { result ≡ new_label self.now word };
}
