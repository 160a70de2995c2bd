// The fields of a word, each by the number of its lowest bit and its width.
ghost use Rattle.std.specs.Prelude.{◌≡◌};
ghost use Rattle.label_words.specs.Word.{field_at, bit_at};

// The `width` bits of `word` from bit `at` on.
pub fn field(word: u32, at: u32, width: u32) -> u32
    ensures { result ≡ field_at word at width }
{
    if 32 <= at {
        return 0;
    }
    let upper = word >> at;
    if 32 <= width {
        return upper;
    }
    upper & ((1 << width) - 1)
}

// Whether bit `at` of `word` is one.
pub fn bit(word: u32, at: u32) -> bool
    ensures { result ≡ bit_at word at }
{
    field(word, at, 1) == 1
}
