// The conversion of containers that were stored while a group minimum could be 1.
#![tactic(auto)]

mod raising;

ghost use Rattle.std.specs.Prelude.{◌≡◌, ◌≤◌};
ghost use Rattle.conversion.specs.Conversion.{check_before};
ghost use Rattle.conversion.specs.Converting.{conversion_says, ended, conversion};
ghost use Rattle.input.specs.Answers.{input_says};

use input::InputRefusal;

// Why a conversion changes nothing: a slice is too short, or what the check finds.
#[derive(Clone, Copy, Debug, PartialEq, Eq)]
pub enum ConversionRefusal {
    TooShort,
    Input(InputRefusal),
}

impl ConversionRefusal {
    ghost use Rattle.conversion.specs.Converting.{conversion_tells};

    // Document 01's number of the refusal.
    pub fn number(self) -> u32
        ensures value { result ≡ conversion_tells (λ number place. number) self }
        ensures result_bound { result ≤ 22 }
    {
        match self {
            ConversionRefusal::TooShort => 1,
            ConversionRefusal::Input(refusal) => refusal.number(),
        }
    }

    // Its place, 0 where a slice is too short.
    pub fn place(self) -> usize
        ensures { result ≡ conversion_tells (λ number place. place) self }
    {
        match self {
            ConversionRefusal::TooShort => 0,
            ConversionRefusal::Input(refusal) => refusal.place(),
        }
    }
}

impl From<InputRefusal> for ConversionRefusal {
    ghost use Rattle.conversion.specs.declared.ConversionRefusal.TheVariants.{Input};

    ghost from_gives = { λ refusal given. given ≡ Input refusal };

    fn from(refusal: InputRefusal) -> ConversionRefusal {
        ConversionRefusal::Input(refusal)
    }
}

// Writes the container with each minimum of 1 raised to 2 to the start of `new`, and the offset of each label changed to the start of
// `offsets`, and answers how many labels it changed. Only what the check before #107 accepts is converted; else nothing changes.
pub fn convert(
    container: &[u8],
    new: &mut [u8],
    offsets: &mut [u32],
) -> Result<usize, ConversionRefusal>
    ensures { ended (conversion_says result) new.new offsets.new
        ≡ conversion container.now new.old offsets.old }
{
    if new.len() < container.len() || offsets.len() < 8192 {
        return Err(ConversionRefusal::TooShort);
    }
    check_before(container)?;
    raising::copy(container, new);
    Ok(raising::raise_tables(container, new, offsets))
}

// The input checks as they were before #107, when no container had a rule year.
#[tactic(auto, unfolding(crate::specs::Conversion::check_before))]
fn check_before(container: &[u8]) -> Result<(), InputRefusal>
    ensures { input_says result ≡ check_before container.now }
{
    if layout::rule_year(container) != 0 {
        return Err(InputRefusal::Container);
    }
    container::check_input_from(container, 1)
}
