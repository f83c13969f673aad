// The float steps, each by its letter, and what each gives.
ghost use Rattle.std.specs.Prelude.{◌≡◌, ◌+◌, ◌<◌, ◌≤◌, ◌⊎◌, MatchOption, get_or};
ghost use Rattle.float_vectors.specs.Steps.{number_of, side_of, steps_of, given_of};

use float_steps::words::{value, word};
use float_steps::{axis, order, remainder, root, sign, whole};
use std::fmt;

// In the order of their letters, a to q.
#[derive(Clone, Copy, Debug, PartialEq, Eq)]
pub enum Step {
    Word,
    Smaller,
    Larger,
    Clamp,
    Unit,
    Finite,
    Rem,
    RemEuclid,
    Wrap,
    Sqrt,
    Abs,
    Square,
    Floor,
    Byte,
    AxisAt,
    AxisNext,
    AxisAlong,
}

// The side of an axis: `locate` is asked for 1 to 2^24.
#[tactic(auto, unfolding(crate::specs::Steps::side_of))]
fn side_of(b: u32) -> usize
    ensures { (result ≡ side_of b) × (1 ≤ result) × (result ≤ 0x100_0000) }
{
    if b < 1 {
        1
    } else if 0x100_0000 < b {
        0x100_0000
    } else {
        b as usize
    }
}

impl Step {
    pub fn from_letter(letter: u8) -> Option<Step>
        ensures { MatchOption result ((letter < 97) ⊎ (113 < letter)) (λ s. letter ≡ 97 + number_of s) }
    {
        match letter {
            b'a' => Some(Step::Word),
            b'b' => Some(Step::Smaller),
            b'c' => Some(Step::Larger),
            b'd' => Some(Step::Clamp),
            b'e' => Some(Step::Unit),
            b'f' => Some(Step::Finite),
            b'g' => Some(Step::Rem),
            b'h' => Some(Step::RemEuclid),
            b'i' => Some(Step::Wrap),
            b'j' => Some(Step::Sqrt),
            b'k' => Some(Step::Abs),
            b'l' => Some(Step::Square),
            b'm' => Some(Step::Floor),
            b'n' => Some(Step::Byte),
            b'o' => Some(Step::AxisAt),
            b'p' => Some(Step::AxisNext),
            b'q' => Some(Step::AxisAlong),
            _ => None,
        }
    }

    // What the step gives: a word, a whole number, or 1 for true.
    #[tactic(auto, unfolding(crate::specs::Steps::steps_of))]
    fn result(self, a: f32, b: f32, c: f32, side: usize) -> u64
        requires { (1 ≤ side) × (side ≤ 0x100_0000) }
        ensures { result ≡ get_or (steps_of a b c side) (number_of self) 0 }
    {
        match self {
            Step::Word => u64::from(word(a)),
            Step::Smaller => u64::from(word(order::smaller(a, b))),
            Step::Larger => u64::from(word(order::larger(a, b))),
            Step::Clamp => u64::from(word(order::clamp(a, b, c))),
            Step::Unit => u64::from(word(order::unit(a))),
            Step::Finite => u64::from(order::finite(a)),
            Step::Rem => u64::from(word(remainder::rem(a, b))),
            Step::RemEuclid => u64::from(word(remainder::rem_euclid(a, b))),
            Step::Wrap => u64::from(word(remainder::wrap(a))),
            Step::Sqrt => u64::from(word(root::sqrt(a))),
            Step::Abs => u64::from(word(sign::abs(a))),
            Step::Square => u64::from(word(sign::square(a))),
            Step::Floor => whole::floor(a),
            Step::Byte => u64::from(whole::byte(a)),
            Step::AxisAt => axis::locate(a, side).at as u64,
            Step::AxisNext => axis::locate(a, side).next as u64,
            Step::AxisAlong => u64::from(word(axis::locate(a, side).along)),
        }
    }

    // What the step gives of words; the second is also the side.
    #[tactic(auto, unfolding(crate::specs::Steps::given_of))]
    pub fn given(self, a: u32, b: u32, c: u32) -> u64
        ensures { result ≡ given_of (number_of self) a b c }
    {
        self.result(value(a), value(b), value(c), side_of(b))
    }
}

impl fmt::Display for Step {
    fn fmt<W: fmt::Write>(&self, f: &mut fmt::Formatter<W>) -> fmt::Result {
        f.write_str(match *self {
            Step::Word => "word of value",
            Step::Smaller => "smaller",
            Step::Larger => "larger",
            Step::Clamp => "clamp",
            Step::Unit => "unit",
            Step::Finite => "finite",
            Step::Rem => "rem",
            Step::RemEuclid => "rem_euclid",
            Step::Wrap => "wrap",
            Step::Sqrt => "sqrt",
            Step::Abs => "abs",
            Step::Square => "square",
            Step::Floor => "floor",
            Step::Byte => "byte",
            Step::AxisAt => "axis at",
            Step::AxisNext => "axis next",
            Step::AxisAlong => "axis along",
        })
    }
}
