// How many of some words are labels. It is 0 where there are more than 8,192 words.
ghost use Rattle.std.specs.Prelude.{◌≡◌, ◌≤◌, length, count_by};
ghost use Rattle.label_words.specs.WellFormed.{well_formed};
ghost use Rattle.little_endian.specs.Bytes.{number_at};
ghost use Rattle.label_bytes.specs.Labels.{labels_among};
ghost use Rattle.label_bytes.specs.Words.{words_of};

use super::test;

// By the product's test.
pub fn labels_by_words(words: &[u32]) -> u32
    ensures { result ≡ labels_among words.now }
{
    if 8192 < words.len() {
        return 0;
    }
    counted_by_words(words)
}

// By the test byte by byte.
pub fn labels_by_bytes(bytes: &[u8]) -> u32
    ensures { result ≡ labels_among (words_of bytes.now) }
{
    let (labels, _) = bytes.as_chunks::<4>();
    if 8192 < labels.len() {
        return 0;
    }
    counted_by_bytes(labels)
}

// Here and below a loop, since filter and count take 7.6 ns a label in place of 1.0 (tests/labels).
fn counted_by_words(words: &[u32]) -> u32
    requires { length words.now ≤ 8192 }
    ensures { result ≡ count_by (λ word. well_formed word) words.now }
{
    let mut count = 0;
    for word in words {
        if label::well_formed(*word) {
            count += 1;
        }
    }
    count
}

fn counted_by_bytes(labels: &[[u8; 4]]) -> u32
    requires { length labels.now ≤ 8192 }
    ensures { result ≡ count_by (λ label. well_formed (number_at label 0 4)) labels.now }
{
    let mut count = 0;
    for label in labels {
        if test::well_formed(label) {
            count += 1;
        }
    }
    count
}
