// How many lines of each kind are answered right and how many wrong. What a line asks is answered elsewhere, and an answer is the place where it ends.
ghost use Rattle.std.specs.Prelude.{◌≡◌, List, ℕ, None, cond, replicate};
ghost use Rattle.verdicts.specs.Lines.{lines_of, asked_of, kind_of, counts, line_counted, lines_counted, Answered, answer, places_from};

use crate::lines::{Lines, asked, first, is_asked, is_right, position};
use crate::tally::{Tally, count_kind};

// What answers lines, one after the other.
pub trait Answering {
    // What is kept from one line to the next.
    type Kept;

    ghost kept: { Self → Self.Kept };

    ghost answered: { List ℕ → Self.Kept → Answered Self.Kept };

    // Where the answer to what a line asks ends.
    fn answer(&mut self, asked: &[u8]) -> usize
        ensures { answer result (kept self.new) ≡ answered asked.now (kept self.old) };
}

// The kind of a line that starts with `first`: where it stands among the kinds' letters.
#[tactic(auto, using(crate::proofs::Splitting::kind_is))]
fn kind_of(kinds: &[u8], first: u8) -> usize
    ensures { result ≡ kind_of kinds.now first }
{
    position(kinds, first).unwrap_or(kinds.len())
}

// Counts a line with its kind, and answers the number of the first wrong line.
#[tactic(auto, unfolding(crate::specs::Lines::with_line))]
fn count_line(
    line: &[u8],
    place: usize,
    number: u64,
    first_wrong: Option<u64>,
    kinds: &[u8],
    tallies: &mut [Tally],
) -> Option<u64>
    ensures { counts tallies.new result ≡ line_counted kinds.now number line.now place (counts tallies.old first_wrong) }
{
    if !is_asked(line) {
        return first_wrong;
    }
    let is_right = is_right(line, place);
    count_kind(tallies, kind_of(kinds, first(line)), is_right);
    if is_right {
        first_wrong
    } else {
        first_wrong.or(Some(number))
    }
}

// Where the answer to a line ends, if it is to be answered; 0 otherwise.
fn answer_if<A: Answering>(answers: &mut A, line: &[u8], is_wanted: bool) -> usize
    ensures { answer result (A.kept answers.new)
        ≡ cond is_wanted (A.answered (asked_of line.now) (A.kept answers.old)) (answer 0 (A.kept answers.old)) }
{
    if is_wanted {
        answers.answer(asked(line))
    } else {
        0
    }
}

// Has the lines of a text answered, the first `most` of them, and counts each with its kind as right or wrong; the number of the first that is wrong. A line
// past those counts as if its answer ended where it begins.
#[tactic(auto, using(crate::proofs::Counting::all_judged))]
pub fn judge<A: Answering>(
    text: &[u8],
    most: usize,
    kinds: &[u8],
    answers: &mut A,
    tallies: &mut [Tally],
) -> Option<u64>
    ensures { let lines = lines_of text.now in counts tallies.new result
        ≡ lines_counted kinds.now (places_from A.answered 0 lines (A.kept answers.old) (replicate most 0)) 0 lines (counts tallies.old None) }
{
    let mut first_wrong = None;
    let mut i: usize = 0;
    for line in Lines::new(text) {
        let place = answer_if(answers, line, i < most);
        i += 1;
        first_wrong = count_line(line, place, i as u64, first_wrong, kinds, tallies);
    }
    first_wrong
}
