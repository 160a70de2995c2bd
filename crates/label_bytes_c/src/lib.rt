// The symbols of the label test and of the stages left, for the tests alone: each calls the function of its name in `label_bytes` and promises the same.
#![tactic(auto)]

ghost use Rattle.std.specs.Prelude.{◌≡◌};
ghost use Rattle.label_bytes.specs.Labels.{labels_among};
ghost use Rattle.label_bytes.specs.Words.{words_of};
ghost use Rattle.trace_lines.specs.promises.Stages.{stages_at};

// By the product's test.
#[unsafe(no_mangle)]
pub extern "C" fn labels_by_words(words: &[u32]) -> u32
    ensures { result ≡ labels_among words.now }
{
    label_bytes::labels_by_words(words)
}

// By the test byte by byte.
#[unsafe(no_mangle)]
pub extern "C" fn labels_by_bytes(bytes: &[u8]) -> u32
    ensures { result ≡ labels_among (words_of bytes.now) }
{
    label_bytes::labels_by_bytes(bytes)
}

// By the product's sum.
#[unsafe(no_mangle)]
pub extern "C" fn stages_by_words(labels: &[u32], rows: usize, columns: usize) -> u32
    ensures { result ≡ stages_at labels.now 0 rows columns }
{
    label_bytes::stages_by_words(labels, rows, columns)
}

// By the first byte of each label.
#[unsafe(no_mangle)]
pub extern "C" fn stages_by_bytes(bytes: &[u8], rows: usize, columns: usize) -> u32
    ensures { result ≡ stages_at (words_of bytes.now) 0 rows columns }
{
    label_bytes::stages_by_bytes(bytes, rows, columns)
}
