// Lists: a count, then as many numbers, or `=` for the list as it is. A list is kept where there is room for the longest one, with its count beside it.
ghost use Rattle.std.specs.Prelude.{◌≡◌};
ghost use Rattle.vector_lines.specs.Lists.{listed, list_by, if_same};

use crate::NOWHERE;
use crate::numbers::{Number, kept_past, number_up_to};

// Reads a list over what it was. The numbers and their count come apart here alone: `Room` (crates/vector_rooms) has both.
pub fn list<T: Number>(line: &[u8], at: usize, list: &mut [T], count: &mut usize) -> usize
    ensures { listed list.new count.new result ≡ list_by (T.read_at line.now) line.now at list.old count.old }
{
    if let Some(next) = kept_past(line, at) {
        return next;
    }
    let head = number_up_to(line, at, list.len() as u64);
    let n = head.value as usize;
    *count = n;
    let mut next = head.next;
    for x in &mut list[..n] {
        let read = T::read(line, next);
        *x = read.value;
        next = read.next;
    }
    next
}

// The place after what was compared, where it was the same.
#[tactic(auto, unfolding(crate::specs::Lists::if_same))]
pub fn if_same(is_same: bool, next: usize) -> usize
    ensures { result ≡ if_same is_same next }
{
    if is_same { next } else { NOWHERE }
}
