// What the input checks answer: nothing, or the first thing that is wrong, with its number and its place.
#![tactic(auto)]

ghost use Rattle.std.specs.Prelude.{◌≡◌, ◌≤◌};

// What can be wrong with a plan: its length, a step's record, the tables that a step takes or the plan leaves, or their columns. The place is a
// byte offset in the container.
#[derive(Clone, Copy, Debug, PartialEq, Eq)]
pub enum PlanRefusal {
    Length(usize),
    Record(usize),
    Tables(usize),
    Columns(usize),
}

impl PlanRefusal {
    ghost use Rattle.input.specs.Answers.{plan_tells};

    // Document 01's number of the refusal.
    pub fn number(self) -> u32
        ensures value { result ≡ plan_tells (λ number place. number) self }
        ensures result_bound { result ≤ 22 }
    {
        match self {
            PlanRefusal::Length(_) => 16,
            PlanRefusal::Record(_) => 17,
            PlanRefusal::Tables(_) => 18,
            PlanRefusal::Columns(_) => 19,
        }
    }

    // Its place.
    pub fn place(self) -> usize
        ensures { result ≡ plan_tells (λ number place. place) self }
    {
        match self {
            PlanRefusal::Length(place)
            | PlanRefusal::Record(place)
            | PlanRefusal::Tables(place)
            | PlanRefusal::Columns(place) => place,
        }
    }
}

// What can be wrong with a container: its length or part count, its directory, a table's header or length, a value, a label, a column of sheet
// numbers, or the plan; and with an overlay: that it does not fit the container, or a label of its. The place is a byte offset, in the overlay for
// these two.
#[derive(Clone, Copy, Debug, PartialEq, Eq)]
pub enum InputRefusal {
    Container,
    Directory(usize),
    Table(usize),
    Value(usize),
    Label(usize),
    Sheets(usize),
    Plan(PlanRefusal),
    Overlay(usize),
    OverlayLabel(usize),
}

impl InputRefusal {
    ghost use Rattle.input.specs.Answers.{input_tells};

    // Document 01's number of the refusal.
    pub fn number(self) -> u32
        ensures value { result ≡ input_tells (λ number place. number) self }
        ensures result_bound { result ≤ 22 }
    {
        match self {
            InputRefusal::Container => 11,
            InputRefusal::Directory(_) => 12,
            InputRefusal::Table(_) => 13,
            InputRefusal::Value(_) => 14,
            InputRefusal::Label(_) => 15,
            InputRefusal::Sheets(_) => 20,
            InputRefusal::Plan(refusal) => refusal.number(),
            InputRefusal::Overlay(_) => 21,
            InputRefusal::OverlayLabel(_) => 22,
        }
    }

    // Its place, 0 of a container that is refused as a whole.
    pub fn place(self) -> usize
        ensures { result ≡ input_tells (λ number place. place) self }
    {
        match self {
            InputRefusal::Container => 0,
            InputRefusal::Plan(refusal) => refusal.place(),
            InputRefusal::Directory(place)
            | InputRefusal::Table(place)
            | InputRefusal::Value(place)
            | InputRefusal::Label(place)
            | InputRefusal::Sheets(place)
            | InputRefusal::Overlay(place)
            | InputRefusal::OverlayLabel(place) => place,
        }
    }
}

impl From<PlanRefusal> for InputRefusal {
    ghost use Rattle.input.specs.declared.InputRefusal.TheVariants.{Plan};

    ghost from_gives = { λ refusal given. given ≡ Plan refusal };

    fn from(refusal: PlanRefusal) -> InputRefusal {
        InputRefusal::Plan(refusal)
    }
}
