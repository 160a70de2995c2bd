// A hash value of a row's keys. Rows with the same keys have the same one, whichever numbers stand for OVER; rows that differ in one key alone have
// different ones.
ghost use Rattle.std.specs.Prelude.{◌≡◌, ◌≤◌, length};
ghost use Rattle.chains.specs.promises.Hash as spec;

use value::pattern::{magnitude, negative};
use value::range::settled;

// That of a row.
pub fn key_hash(row: &[i64], keys: u32) -> u64
    requires { length row.now ≤ 8 }
    ensures { result ≡ spec.hash_of keys row.now }
{
    let mut hash = 0;
    for column in 0..row.len() {
        if (keys >> column) % 2 == 1 {
            hash = with_key(hash, row[column]);
        }
    }
    hash
}

// With one key more: what the keys before gave is rotated by a byte, so that small keys do not overlap.
fn with_key(hash: u64, value: i64) -> u64
    ensures { result ≡ spec.with_key hash value }
{
    let key = settled(value);
    (hash << 8 | hash >> 56) ^ (magnitude(key) << 1 | negative(key) as u64)
}
