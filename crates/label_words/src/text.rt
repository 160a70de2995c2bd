// The highest stage and a refusal as text.
ghost use Rattle.std.specs.Prelude.{Some};
ghost use Rattle.label_words.specs.Text.{highest_text, refusal_text};

use super::{Highest, LabelRefusal};
use std::fmt;

impl fmt::Display for Highest {
    ghost output = { λ highest. Some (highest_text highest) };

    fn fmt<W: fmt::Write>(&self, f: &mut fmt::Formatter<W>) -> fmt::Result {
        f.write_str(match self {
            Highest::H => "highest H",
            Highest::T => "highest T",
            Highest::A => "highest A",
            Highest::N => "highest N",
            Highest::Clear => "clear",
        })
    }
}

// A number and a place, where there is one.
impl fmt::Display for LabelRefusal {
    ghost output = { λ refusal. Some (refusal_text refusal) };

    fn fmt<W: fmt::Write>(&self, f: &mut fmt::Formatter<W>) -> fmt::Result {
        f.write_str(match self {
            LabelRefusal::Forbidden => "forbidden",
            LabelRefusal::IllFormed => "15 at 0",
            LabelRefusal::NoOperation => "17 at 0",
        })
    }
}
