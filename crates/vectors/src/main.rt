// Replays the fixed vectors on standard input against the library and writes, for each kind of line, how many are answered right and how many wrong,
// and where the first wrong one stands. The vectors are written by oracle/, whose README has the form of a line.
#![tactic(auto)]

mod replay;

use replay::judge;
use std::io;
use verdicts::{Tally, read_text};

// The letters of the kinds of lines; the last is that of the spoiled ones.
const LETTERS: [u8; 7] = *b"FNBCJR!";

// The kinds, in the order in which they are written: the name of each and its place among the letters. Lines of no kind have the place after them.
const KINDS: [(&str, usize); 8] = [
    ("names", 0),
    ("narrowings", 1),
    ("bytes", 2),
    ("compositions", 3),
    ("jobs", 4),
    ("cards", 5),
    ("lines of no kind", 7),
    ("spoiled lines", 6),
];

// Room for all the lines at once; where they are more, none is counted.
fn room() -> [u8; 0x20_0000] {
    [0; 0x20_0000]
}

fn main(rt: HostRuntime) -> io::Result<()> {
    let mut room = room();
    let mut tallies = [Tally::default(); KINDS.len()];
    let text = read_text(&mut rt.stdin(), &mut room)?;
    let first_wrong = judge(text, &LETTERS, &mut tallies);
    for (name, kind) in KINDS {
        let tally = tallies[kind];
        println!(rt; "{name}: {tally}")?;
    }
    if let Some(line) = first_wrong {
        println!(rt; "the first wrong line: {line}")?;
    }
    Ok(())
}
