// The new cell of a row.
ghost use Rattle.std.specs.Prelude.{pos, get_or};
ghost use Rattle.noise_value.specs.Noise as spec;
ghost use Rattle.noise.specs.promises.Making.{label_at};

use extension::NewCell;

// What noise makes of a row: the first draw is for the first row.
#[derive(Clone, Copy)]
pub struct Noisy<'a> {
    pub draws: &'a [i64],
}

impl NewCell for Noisy<'_> {
    ghost new_value = { λ noise number first row. spec.noisy first (get_or noise.draws.now number (pos 0)) };

    ghost new_label = { λ noise word. label_at word };

    // Without noise where no draw is left.
    fn value(&self, number: usize, first: i64, _row: &[i64]) -> i64 {
        let draw = self.draws.get(number).copied().unwrap_or(0);
        noise_value::noisy(first, draw)
    }

    // By the label library. A label on which noise is forbidden stays as it is.
    fn label(&self, word: u32) -> u32 {
        label::discharge_noise(word).unwrap_or(word)
    }
}
