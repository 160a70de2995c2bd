// A label under the floor of ten.
#![tactic(auto)]

ghost use Rattle.std.specs.Prelude.{◌≡◌};
ghost use Rattle.label_floor.specs.Floor.{floored};

// The label with a group minimum of ten, where stage A is present and its minimum is below ten. One comparison has both, since bit 29 alone is turned over.
pub fn raise_minimum(label: u32) -> u32
    ensures { result ≡ floored 1 label }
{
    if ((label & 0x2000_03FF) ^ 0x2000_0000) < 10 {
        (label & 0xFFFF_FC00) | 10
    } else {
        label
    }
}
