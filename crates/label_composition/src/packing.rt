// A word of its fields.
ghost use Rattle.std.specs.Prelude.{◌≡◌, ◌<◌};
ghost use Rattle.label_words.specs.Word.{packed};

// The word with these fields.
pub fn pack(
    stages: u32,
    transforms: u32,
    noise: u32,
    aggregates: u32,
    digits: u32,
    minimum: u32,
) -> u32
    requires { (stages < 16) × (transforms < 16) × (noise < 2) × (aggregates < 32) × (digits < 8) × (minimum < 1024) }
    ensures { result ≡ packed stages transforms noise aggregates digits minimum }
{
    stages << 28
        | (transforms << 24 | (noise << 23 | (aggregates << 16 | (digits << 10 | minimum))))
}
