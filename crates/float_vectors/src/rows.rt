// The rows of a text: a step's letter, three operands as words (the second is a side, for a coordinate) and the result.
ghost use Rattle.std.specs.Prelude.{◌≡◌, None, replicate};
ghost use Rattle.verdicts.specs.Lines.{lines_of, counts, lines_counted, answer, places_of};
ghost use Rattle.float_vectors.specs.Steps.{taken_at};

use crate::steps::Step;
use vector_lines::{NOWHERE, expect, number_up_to};
use verdicts::{Answering, Tally, first};

// The largest word.
const WORD: u64 = 0xffff_ffff;

// How many rows are taken; those after them count as not taken.
const MOST: usize = 0x1000;

// The place after a row's result, or NOWHERE where the row is malformed or its step gives another.
#[tactic(auto, unfolding(crate::specs::Steps::taken_at, crate::specs::Steps::second_at, crate::specs::Steps::third_at, crate::specs::Steps::result_at))]
fn taken(row: &[u8]) -> usize
    ensures { result ≡ taken_at row.now }
{
    let Some(step) = Step::from_letter(first(row)) else {
        return NOWHERE;
    };
    let a = number_up_to(row, 1, WORD);
    let b = number_up_to(row, a.next, WORD);
    let c = number_up_to(row, b.next, WORD);
    expect(
        row,
        c.next,
        step.given(a.value as u32, b.value as u32, c.value as u32),
    )
}

// Runs the step of each row.
#[derive(Clone, Copy)]
struct Steps;

impl Answering for Steps {
    type Kept = ();

    ghost kept = { λ _. tt };

    ghost answered = { λ row k. answer (taken_at row) k };

    fn answer(&mut self, asked: &[u8]) -> usize {
        taken(asked)
    }
}

// Runs the step of each row of a text and counts the rows that are right and those that are wrong, by their steps' letters; the number of the first that is
// wrong.
pub fn judge(text: &[u8], kinds: &[u8], tallies: &mut [Tally]) -> Option<u64>
    ensures { let rows = lines_of text.now in counts tallies.new result
        ≡ lines_counted kinds.now (places_of taken_at 0 rows (replicate MOST 0)) 0 rows (counts tallies.old None) }
{
    verdicts::judge(text, MOST, kinds, &mut Steps, tallies)
}
