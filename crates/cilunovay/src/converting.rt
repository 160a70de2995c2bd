// The conversion of a container that was stored while a group minimum could be 1.
ghost use Rattle.std.specs.Prelude.{◌≡◌};
ghost use Rattle.call_demands.specs.Calls.{convert_call, convert_called};

use call_numbers::conversion_numbers;

// Converts a container, writes 0 and the number of labels changed, or document 01's number and place, to the answer's start, and answers the
// first. Where the answer has fewer than two elements, nothing lent changes and the number is 1.
pub fn cilunovay_convert(
    container: &[u8],
    converted: &mut [u8],
    offsets: &mut [u32],
    answer: &mut [u64],
) -> u32
    ensures { convert_called result converted.new offsets.new answer.new
        ≡ convert_call container.now converted.old offsets.old answer.old }
{
    if answer.len() < 2 {
        return 1;
    }
    let told = conversion::convert(container, converted, offsets);
    let numbers = conversion_numbers(told);
    answer[..2].copy_from_slice(&numbers);
    numbers[0] as u32
}
