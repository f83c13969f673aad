// The names of the operators: `from_name` (composite.rs 351 to 376) on bytes of any length.
// The contracts cite specs/Names, the readable list of the names, and specs/Packed, how the code keeps them.
#![tactic(auto)]

ghost use Rattle.std.specs.Prelude.{◌≡◌, ◌+◌, ◌≤◌, length, get_or, take, drop};
ghost use Rattle.names.specs.Names.{is_kept, lower, key_of, same, from_name};
ghost use Rattle.names.specs.Packed.{letters, lengths, most_letters, numbers, cut, place_from};

mod lists;

// How many names there are, and how many letters the longest has. The first names are the operators' own, in the order of their numbers.
const NAMES: usize = 83;

const OPERATORS: usize = 70;

const MOST_LETTERS: usize = 16;

// Whether a byte counts: '-', '_' and space do not.
#[tactic(auto, unfolding(crate::specs::Names::is_kept))]
fn is_kept(b: u8) -> bool
    ensures { result ≡ is_kept b }
{
    !matches!(b, b'-' | b'_' | b' ')
}

#[tactic(auto, unfolding(crate::specs::Names::lower))]
fn lowered(b: u8) -> u8
    ensures { result ≡ lower b }
{
    b.to_ascii_lowercase()
}

// How many bytes of a text count, up to one more than the longest name has. The compiler would write a loop without that end out four times, and a chain that
// takes so many seventeen times, so that `from_name` would have 1,249 bytes and not 424 (docs/DECISIONS.md 31).
#[tactic(auto, using(crate::proofs::Reading::too_long, crate::proofs::Reading::sum_kept, crate::proofs::Reading::sum_dropped, crate::proofs::Reading::all_counted))]
fn key_length(s: &[u8]) -> usize
    ensures { result ≡ length (take (most_letters + 1) (key_of s.now)) }
{
    let mut n = 0;
    for &b in s {
        if is_kept(b) {
            if n == MOST_LETTERS {
                return MOST_LETTERS + 1;
            }
            n += 1;
        }
    }
    n
}

// Whether a text reads as the letters from a place on, as many as count of it.
#[tactic(auto, using(crate::proofs::Reading::inside, crate::proofs::Reading::within_kept, crate::proofs::Reading::within_dropped, crate::proofs::Reading::dropped, crate::proofs::Reading::differs, crate::proofs::Reading::agrees, crate::proofs::EndToEnd::letters_count))]
fn reads_at(s: &[u8], at: usize) -> bool
    requires { at + length (key_of s.now) ≤ length letters }
    ensures { result ≡ same (key_of s.now) (take (length (key_of s.now)) (drop at letters)) }
{
    let mut j = at;
    for &b in s {
        if is_kept(b) {
            if lowered(b) != lists::letter(j) {
                return false;
            }
            j += 1;
        }
    }
    true
}

// The place of the first name that a text reads as. Only a name of its length can be that name.
#[tactic(auto, using(crate::proofs::Finding::this_one, crate::proofs::EndToEnd::names_packed, crate::proofs::EndToEnd::names_count, crate::proofs::Packing::ended))]
fn find(s: &[u8]) -> Option<usize>
    ensures { result ≡ place_from 0 (key_of s.now) (cut lengths letters) }
{
    let n = key_length(s);
    let mut at = 0;
    for k in 0..NAMES {
        let m = lists::length_of(k);
        if m == n && reads_at(s, at) {
            return Some(k);
        }
        at += m;
    }
    None
}

// The number of the operator that the k-th name names: an operator's own name stands at its number.
#[tactic(auto, using(crate::proofs::Known::own_place, crate::proofs::Known::of_alias))]
fn number(k: usize) -> u64
    ensures { result ≡ get_or numbers k 0 }
{
    if k < OPERATORS {
        k as u64
    } else {
        lists::alias(k - OPERATORS)
    }
}

// The number of the operator that a text names (where it names none: fault 3, OPERATOR).
pub fn from_name(s: &[u8]) -> Option<u64>
    ensures { result ≡ from_name s.now }
{
    find(s).map(number)
}
