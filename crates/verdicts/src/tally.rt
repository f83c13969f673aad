// How many lines of a kind are answered right, and how many wrong. A number that is full stays as it is.
ghost use Rattle.std.specs.Prelude.{◌≡◌};
ghost use Rattle.verdicts.specs.Tally.{one_more, kind_counted};

use std::fmt;

#[derive(Clone, Copy, Default)]
pub struct Tally {
    pub right: u64,
    pub wrong: u64,
}

impl Tally {
    // One line more.
    pub fn count(&mut self, is_right: bool)
        ensures { self.new ≡ one_more is_right self.old }
    {
        if is_right {
            self.right = self.right.saturating_add(1);
        } else {
            self.wrong = self.wrong.saturating_add(1);
        }
    }
}

impl fmt::Display for Tally {
    fn fmt<W: fmt::Write>(&self, f: &mut fmt::Formatter<W>) -> fmt::Result {
        write!(f, "{} right, {} wrong", self.right, self.wrong)
    }
}

// One line more of a kind, where the kind has numbers. (`get_mut` was tried: what it leaves in the list has no proof.)
#[tactic(auto, using(std::proofs::lemmas::List::set_past))]
pub(crate) fn count_kind(tallies: &mut [Tally], kind: usize, is_right: bool)
    ensures { tallies.new ≡ kind_counted is_right kind tallies.old }
{
    if kind < tallies.len() {
        tallies[kind].count(is_right);
    }
}
