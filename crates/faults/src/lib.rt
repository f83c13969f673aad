// Why a call is refused: each reason with its number, in the order of the numbers. The contracts cite specs/Numbers; specs/Faults has the numbers' names for
// the definitions.
#![tactic(auto)]

ghost use Rattle.std.specs.Prelude.{◌≡◌};
ghost use Rattle.faults.specs.Numbers.{number_of, number_in, refused_if};

#[derive(Clone, Copy, Debug, PartialEq, Eq)]
pub enum Fault {
    Stack = 1,
    Tray,
    Operator,
    Curve,
    Placing,
    Flags,
    Source,
    Arguments,
    Work,
    Mark,
    Narrow,
    Card,
    Window,
    JobNumber,
    Spot,
}

impl Fault {
    // The number under which a caller in C sees it.
    #[tactic(auto, unfolding(crate::specs::Numbers::number_of))]
    pub fn number(self) -> u64
        ensures { result ≡ number_of self }
    {
        self as u64
    }

    // A refusal for this reason where a test holds.
    pub fn when(self, holds: bool) -> Result<(), Fault>
        ensures { result ≡ refused_if holds self }
    {
        if holds { Err(self) } else { Ok(()) }
    }
}

// The number of an answer: 0 where nothing is refused.
pub fn number(answer: Result<(), Fault>) -> u64
    ensures { result ≡ number_in answer }
{
    match answer {
        Ok(()) => 0,
        Err(fault) => fault.number(),
    }
}
