// A file of draws: decimal numbers, one a line, with a minus sign where one is below zero.
ghost use Rattle.std.specs.Prelude.{◌≤◌, length};

use std::num::{wrapping_add_u64, wrapping_sub_u64};
use value::pattern::signed;

// Reads the numbers of a text's lines, and answers how many there are; past the last for which there is room, none. What stands behind the last end
// of a line is none. They are read by hand: bytes that are no digits add nothing, and numbers of 64 bits wrap, which no function of the library does.
pub fn read(text: &[u8], numbers: &mut [i64]) -> usize
    ensures { result ≤ length numbers.new }
{
    let mut count = 0;
    let mut bits = 0;
    let mut negative = false;
    for &byte in text {
        if byte == b'\n' {
            let Some(place) = numbers.get_mut(count) else {
                break;
            };
            *place = number(bits, negative);
            count += 1;
            bits = 0;
            negative = false;
        } else {
            negative |= byte == b'-';
            bits = with_digit(bits, byte);
        }
    }
    count
}

// A number of 64 bits with one digit more; another byte adds nothing.
fn with_digit(bits: u64, byte: u8) -> u64 {
    match byte {
        b'0'..=b'9' => wrapping_add_u64(wrapping_add_u64(bits << 3, bits << 1), (byte - 48) as u64),
        _ => bits,
    }
}

// The sign comes before the digits, so it is held until the line ends.
fn number(bits: u64, negative: bool) -> i64 {
    signed(if negative {
        wrapping_sub_u64(0, bits)
    } else {
        bits
    })
}
