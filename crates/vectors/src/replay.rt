// The lines of a text, one after the other: each is asked of the library.
ghost use Rattle.std.specs.Prelude.{◌≡◌, None, replicate};
ghost use Rattle.verdicts.specs.Lines.{lines_of, counts, lines_counted, answer, places_from};
ghost use Rattle.vector_rooms.specs.Rooms.{nothing_kept};
ghost use Rattle.vectors.specs.Replay.{replayed_at};

use vector_cases::{card, composition, name, narrowing};
use vector_jobs::job;
use vector_lines::NOWHERE;
use vector_rooms::Rooms;
use verdicts::{Answering, Tally, first};

// How many lines are replayed; those after them count as not answered.
const MOST: usize = 0x4000;

// The place after the last token of a line, or NOWHERE.
fn replayed(line: &[u8], rooms: &mut Rooms) -> usize
    ensures { answer result rooms.new ≡ replayed_at line.now rooms.old }
{
    match first(line) {
        b'F' => name(line),
        b'N' => narrowing(line, false, &mut rooms.input),
        b'B' => narrowing(line, true, &mut rooms.input),
        b'C' => composition(line, &mut rooms.lists),
        b'J' => job(line, &mut rooms.lists, &mut rooms.memory),
        b'R' => card(line),
        _ => NOWHERE,
    }
}

// Replays lines, each with the lists as the lines before it left them.
#[derive(Drop)]
struct Replay {
    rooms: Rooms,
}

impl Answering for Replay {
    type Kept = Rooms;

    ghost kept = { λ s. s.rooms };

    ghost answered = { replayed_at };

    fn answer(&mut self, asked: &[u8]) -> usize {
        replayed(asked, &mut self.rooms)
    }
}

// Replays the lines of a text and counts those that are right and those that are wrong, by their kinds' letters; the number of the first that is wrong.
pub fn judge(text: &[u8], kinds: &[u8], tallies: &mut [Tally]) -> Option<u64>
    ensures { let lines = lines_of text.now in counts tallies.new result
        ≡ lines_counted kinds.now (places_from replayed_at 0 lines nothing_kept (replicate MOST 0)) 0 lines (counts tallies.old None) }
{
    let mut replay = Replay {
        rooms: Rooms::new(),
    };
    verdicts::judge(text, MOST, kinds, &mut replay, tallies)
}
