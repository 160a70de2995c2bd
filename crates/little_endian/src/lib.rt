// Little-endian numbers in bytes. A byte past the end counts as 0, so that every read is defined.
#![tactic(auto)]

ghost use Rattle.std.specs.Array.{IsFirstChunk};
ghost use Rattle.std.specs.Prelude.{◌≡◌, ◌+◌, ◌<◌, drop, length, MatchOption};
ghost use Rattle.little_endian.specs.Bytes.{number_at, byte_at};

// The byte at a place.
pub fn byte(bytes: &[u8], at: usize) -> u8
    ensures { result ≡ byte_at bytes.now at }
{
    if at < bytes.len() { bytes[at] } else { 0 }
}

// The N bytes from a place on, where all are there.
fn chunk<const N: usize>(bytes: &[u8], at: usize) -> Option<&[u8; N]>
    ensures { MatchOption result (length bytes.now < at + N) (λ chunk. IsFirstChunk (drop at bytes.now) chunk.now N) }
{
    bytes.get(at..)?.first_chunk()
}

// The bytes from a place on: none past the end.
fn rest(bytes: &[u8], at: usize) -> &[u8]
    ensures { result.now ≡ drop at bytes.now }
{
    bytes.get(at..).unwrap_or(&[])
}

// The number of the two bytes from a place on. This, `four` and `eight` are each by the `from_le_bytes` of its type, of which the compiler makes one read
// wherever it is called. One function for every length would go over the bytes by a loop, which takes up to twice as long.
pub fn two(bytes: &[u8], at: usize) -> u16
    ensures { result ≡ number_at bytes.now at 2 }
{
    match chunk(bytes, at) {
        Some(all) => u16::from_le_bytes(*all),
        None => byte(bytes, at) as u16,
    }
}

// The number of the three bytes from a place on.
pub fn three(bytes: &[u8], at: usize) -> u32
    ensures { result ≡ number_at bytes.now at 3 }
{
    let there = rest(bytes, at);
    two(there, 0) as u32 + 0x1_0000 * byte(there, 2) as u32
}

// The number of the four bytes from a place on.
pub fn four(bytes: &[u8], at: usize) -> u32
    ensures { result ≡ number_at bytes.now at 4 }
{
    match chunk(bytes, at) {
        Some(all) => u32::from_le_bytes(*all),
        None => {
            let there = rest(bytes, at);
            two(there, 0) as u32 + 0x1_0000 * two(there, 2) as u32
        }
    }
}

// The number of the eight bytes from a place on.
pub fn eight(bytes: &[u8], at: usize) -> u64
    ensures { result ≡ number_at bytes.now at 8 }
{
    match chunk(bytes, at) {
        Some(all) => u64::from_le_bytes(*all),
        None => {
            let there = rest(bytes, at);
            four(there, 0) as u64 + 0x1_0000_0000 * four(there, 4) as u64
        }
    }
}
