// Numbers of a text: decimal ones with a sign, and words of eight hexadecimal digits (document 02, A.2). A function is given just the bytes that must be the
// number. The contracts cite specs/Digits and specs/Numbers.
#![tactic(auto)]

ghost use Rattle.std.specs.Prelude.{◌≡◌, ◌≤◌, cond, ltb, length};
ghost use Rattle.numerals.specs.Digits.{digit_of, number_in};
ghost use Rattle.numerals.specs.Numbers.{unsigned_of, plus, minus, decimal_of, hex_of};

// The most digits of a decimal number, and the digits of a word.
const DIGITS: usize = 10;

const WORD: usize = 8;

// The digit of the base that a byte is.
#[tactic(auto, unfolding(crate::specs::Digits::digit_of))]
fn digit(base: u64, b: u8) -> Option<u64>
    requires { base ≤ 16 }
    ensures { result ≡ cond (ltb (digit_of b) base) (Some (digit_of b)) None }
{
    let d = match b {
        b'0'..=b'9' => b - b'0',
        b'a'..=b'f' => b - b'a' + 10,
        _ => return None,
    };
    let d = u64::from(d);
    (d < base).then_some(d)
}

// A text of digits.
#[tactic(auto, using(crate::proofs::Reading::begun, crate::proofs::Reading::taken, crate::proofs::Reading::grows, crate::proofs::Reading::room))]
fn number_in(base: u64, s: &[u8]) -> Option<u64>
    requires { (base ≤ 16) × (length s.now ≤ 10) }
    ensures { result ≡ number_in base s.now }
{
    let mut n = 0;
    for &b in s {
        n = n * base + digit(base, b)?;
    }
    Some(n)
}

// A decimal number without a sign: one to ten digits, no zero before others.
#[tactic(auto, using(crate::proofs::Reading::empty, crate::proofs::Reading::zero_led, crate::proofs::Reading::too_long, crate::proofs::Reading::led))]
fn unsigned(s: &[u8]) -> Option<u64>
    ensures { result ≡ unsigned_of s.now }
{
    match s {
        [] | [b'0', _, ..] => None,
        _ if DIGITS < s.len() => None,
        _ => number_in(10, s),
    }
}

#[tactic(auto, using(crate::proofs::Signed::same_fits, crate::proofs::Signed::same_bits))]
fn positive(s: &[u8]) -> Option<i64>
    ensures { result ≡ plus (unsigned_of s.now) }
{
    let n = unsigned(s)?;
    Some(n as i64)
}

#[tactic(auto, using(crate::proofs::Signed::same_fits, crate::proofs::Signed::below_fits, crate::proofs::Signed::below_bits))]
fn negative(s: &[u8]) -> Option<i64>
    ensures { result ≡ minus (unsigned_of s.now) }
{
    match unsigned(s)? {
        0 => None,
        n => Some(-(n as i64)),
    }
}

// A decimal number, with a minus where it is below 0.
#[tactic(auto, using(crate::proofs::Reading::from_zero, crate::proofs::Reading::below_zero_lem))]
pub fn decimal(s: &[u8]) -> Option<i64>
    ensures { result ≡ decimal_of s.now }
{
    match s {
        [b'-', rest @ ..] => negative(rest),
        _ => positive(s),
    }
}

// A word of 32 bits: eight hexadecimal digits.
#[tactic(auto, using(crate::proofs::Signed::word_fits), unfolding(crate::specs::Numbers::hex_of))]
pub fn hex(s: &[u8]) -> Option<u32>
    ensures { result ≡ hex_of s.now }
{
    if s.len() != WORD {
        return None;
    }
    let w = number_in(16, s)?;
    Some(w as u32)
}
