// The input checks alone.
ghost use Rattle.std.specs.Prelude.{◌≡◌};
ghost use Rattle.call_demands.specs.Calls.{check_call, check_called};

use call_numbers::check_numbers;

// Checks a container, writes document 01's number and the byte offset after it to the answer's start, and answers the number: 0, and
// offset 0, where the container is accepted. Where the answer has fewer than two elements, it stays as it is and the number is 1.
pub fn cilunovay_check(container: &[u8], answer: &mut [u64]) -> u32
    ensures { check_called result answer.new ≡ check_call container.now answer.old }
{
    if answer.len() < 2 {
        return 1;
    }
    let numbers = check_numbers(container::check_input(container));
    answer[..2].copy_from_slice(&numbers);
    numbers[0] as u32
}
