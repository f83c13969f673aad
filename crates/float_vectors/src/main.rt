// Runs each float step on the rows of standard input and writes, a line a step, how many results are right and how many are wrong, and the same for the
// spoiled rows, which it must not take, and for rows of no step; and where the first wrong row stands. A row has the form of a line of oracle/README.md. The
// rows were worked out by tools/float-vectors/vectors.rs.
#![tactic(auto)]

mod rows;
mod steps;

use rows::judge;
use std::io;
use steps::Step;
use verdicts::{Tally, read_text};

// The letters of the steps and, after them, that of the spoiled rows. Rows of no step have the place after those.
const LETTERS: [u8; 18] = *b"abcdefghijklmnopq!";

// Room for all the rows at once; where they are more, none is counted.
fn room() -> [u8; 0x2_0000] {
    [0; 0x2_0000]
}

fn main(rt: HostRuntime) -> io::Result<()> {
    let mut room = room();
    let mut tallies = [Tally::default(); LETTERS.len() + 1];
    let text = read_text(&mut rt.stdin(), &mut room)?;
    let first_wrong = judge(text, &LETTERS, &mut tallies);
    for (letter, tally) in LETTERS.iter().zip(tallies.iter()) {
        match Step::from_letter(*letter) {
            Some(step) => println!(rt; "{step}: {tally}")?,
            None => println!(rt; "spoiled rows: {tally}")?,
        }
    }
    let tally = tallies[LETTERS.len()];
    println!(rt; "rows of no step: {tally}")?;
    if let Some(row) = first_wrong {
        println!(rt; "the first wrong row: {row}")?;
    }
    Ok(())
}
