// Tokens and numbers. A token stands after one space; a number is one to sixteen small hexadecimal digits without leading zeros.
ghost use Rattle.std.specs.Prelude.{◌≡◌, ◌≤◌, ℕ, List};
ghost use Rattle.vector_lines.specs.declared.numbers.Read.{Read};
ghost use Rattle.vector_lines.specs.Numbers.{most_signed, byte_of, past_of, token_at, kept_past_at};
ghost use Rattle.vector_lines.specs.Numbers.{digit_in, none, up_to, gone_on, digits_at, number_at, expected_by};
ghost use Rattle.vector_lines.specs.Numbers.{integer_of, complement_of, u8_at, u32_at, u64_at, signed_at};

use crate::NOWHERE;

// What is read at a place, and the place after it; 0 and NOWHERE where nothing can be.
#[derive(Clone, Copy)]
pub struct Read<T> {
    pub value: T,
    pub next: usize,
}

// A number that a line may have: how one is read after a space.
pub trait Number: Copy {
    ghost read_at: { List ℕ → ℕ → Read Self };

    fn read(line: &[u8], at: usize) -> Read<Self>
        ensures { result ≡ read_at line.now at };
}

impl Number for u8 {
    ghost read_at = { u8_at };

    #[tactic(auto, unfolding(crate::specs::Numbers::u8_at))]
    fn read(line: &[u8], at: usize) -> Read<u8> {
        let n = number_up_to(line, at, u64::from(u8::MAX));
        Read {
            value: n.value as u8,
            next: n.next,
        }
    }
}

impl Number for u32 {
    ghost read_at = { u32_at };

    #[tactic(auto, unfolding(crate::specs::Numbers::u32_at))]
    fn read(line: &[u8], at: usize) -> Read<u32> {
        let n = number_up_to(line, at, u64::from(u32::MAX));
        Read {
            value: n.value as u32,
            next: n.next,
        }
    }
}

impl Number for u64 {
    ghost read_at = { u64_at };

    #[tactic(auto, unfolding(crate::specs::Numbers::u64_at))]
    fn read(line: &[u8], at: usize) -> Read<u64> {
        number_up_to(line, at, u64::MAX)
    }
}

// A number that may be below zero: then its complement stands after `~`.
impl Number for i64 {
    ghost read_at = { signed_at };

    #[tactic(auto, unfolding(crate::specs::Numbers::signed_at))]
    fn read(line: &[u8], at: usize) -> Read<i64> {
        let start = token(line, at);
        if byte(line, start) == b'~' {
            return complement(limited(digits(line, past(start)), MOST_SIGNED));
        }
        plain(limited(digits(line, start), MOST_SIGNED))
    }
}

// The byte at a place; 0 past the line's end.
fn byte(line: &[u8], at: usize) -> u8
    ensures { result ≡ byte_of line.now at }
{
    if at < line.len() { line[at] } else { 0 }
}

fn past(at: usize) -> usize
    ensures { result ≡ past_of at }
{
    at.saturating_add(1)
}

// Where the token after a space starts.
fn token(line: &[u8], at: usize) -> usize
    ensures { result ≡ token_at line.now at }
{
    if byte(line, at) == b' ' {
        past(at)
    } else {
        NOWHERE
    }
}

// The digit that a byte is. Not that of crates/numerals: a program that tests the library reads its lines with nothing of the library's own readers.
#[tactic(auto, unfolding(crate::specs::Numbers::digit_of))]
fn digit(b: u8) -> Option<u64>
    ensures { result ≡ digit_in b }
{
    match b {
        b'0'..=b'9' => Some(u64::from(b - b'0')),
        b'a'..=b'f' => Some(u64::from(b - b'a') + 10),
        _ => None,
    }
}

fn digit_at(line: &[u8], at: usize) -> Option<u64>
    ensures { result ≡ digit_in (byte_of line.now at) }
{
    digit(byte(line, at))
}

fn nothing() -> Read<u64>
    ensures { result ≡ none }
{
    Read {
        value: 0,
        next: NOWHERE,
    }
}

// The number whose digits go on at `start` after those that spell `first`; NOWHERE where it has more than 64 bits.
fn more_digits(line: &[u8], start: usize, first: u64) -> Read<u64>
    ensures { result ≡ gone_on line.now start first }
{
    let mut value = first;
    let mut at = start;
    // By places: past the line's end there is no digit, so the end is no case of its own, as it would be for a `for` over the rest.
    while let Some(d) = digit_at(line, at) {
        if value > u64::MAX / 16 {
            return nothing();
        }
        value = value * 16 + d;
        at += 1;
    }
    Read { value, next: at }
}

// The number whose digits start at `start`; NOWHERE where there is no digit, or a zero before others, or more than 64 bits.
fn digits(line: &[u8], start: usize) -> Read<u64>
    ensures { result ≡ digits_at line.now start }
{
    let Some(first) = digit_at(line, start) else {
        return nothing();
    };
    let second = start + 1;
    if first == 0 && digit_at(line, second).is_some() {
        return nothing();
    }
    more_digits(line, second, first)
}

// A number of at most `most`.
fn limited(n: Read<u64>, most: u64) -> Read<u64>
    ensures value { result ≡ up_to most n.value n.next }
    ensures value_le_most { result.value ≤ most }
{
    if n.value > most { nothing() } else { n }
}

// The number after a space.
pub fn number_up_to(line: &[u8], at: usize, most: u64) -> Read<u64>
    ensures value { result ≡ number_at most line.now at }
    ensures value_le_most { result.value ≤ most }
{
    limited(digits(line, token(line, at)), most)
}

// The place after a number that must be `value`.
#[tactic(auto, unfolding(crate::specs::Numbers::expected_by))]
pub fn expect<T: Number + PartialEq>(line: &[u8], at: usize, value: T) -> usize
    ensures { result ≡ expected_by T.eq (T.read_at line.now at) value }
{
    let n = T::read(line, at);
    if n.value == value { n.next } else { NOWHERE }
}

const MOST_SIGNED: u64 = 0x7fff_ffff_ffff_ffff;

fn plain(n: Read<u64>) -> Read<i64>
    requires { n.value ≤ most_signed }
    ensures { result ≡ integer_of n }
{
    Read {
        value: n.value as i64,
        next: n.next,
    }
}

fn complement(n: Read<u64>) -> Read<i64>
    requires { n.value ≤ most_signed }
    ensures { result ≡ complement_of n }
{
    Read {
        value: !(n.value as i64),
        next: n.next,
    }
}

// The place after `=`, where that stands in the place of a list.
pub fn kept_past(line: &[u8], at: usize) -> Option<usize>
    ensures { result ≡ kept_past_at line.now at }
{
    let start = token(line, at);
    if byte(line, start) == b'=' {
        Some(past(start))
    } else {
        None
    }
}
