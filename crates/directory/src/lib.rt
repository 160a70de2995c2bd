// The directory of a container or of an overlay: one pair for each part, its offset and its length.
#![tactic(auto)]

ghost use Rattle.std.specs.Prelude.{◌≡◌, ℕ};
ghost use Rattle.directory.specs.Directory.{check_directory};
ghost use Rattle.directory.specs.promises.Answers.{directory_says};

use layout::{part_length, part_offset};

// What is wrong with a directory: the place of the first pair that is not right.
#[derive(Clone, Copy, Debug, PartialEq, Eq)]
pub struct WrongPair {
    pub place: usize,
}

// Whether each of so many parts begins where the one before it ends, the first where the directory ends, and the last ends the bytes.
pub fn check_directory(bytes: &[u8], parts: u16) -> Result<(), WrongPair>
    ensures { (number : ℕ) → directory_says number result ≡ check_directory number parts bytes.now }
{
    let count = parts as usize;
    let mut expected = 2 + 8 * count;
    let mut place = 2;
    for index in 0..count {
        place = 2 + 8 * index;
        if part_offset(bytes, index) as usize != expected {
            return Err(WrongPair { place });
        }
        expected += part_length(bytes, index) as usize;
    }
    if expected != bytes.len() {
        return Err(WrongPair { place });
    }
    Ok(())
}
