// Remainders.
ghost use Rattle.std.specs.Prelude.{◌≡◌, ◌+◌, ◌-◌, ◌*◌, ◌/◌, ◌%◌, ◌^◌, ◌<◌, ◌≤◌};
ghost use Rattle.std.specs.Float.Ieee as Ieee;
ghost use Rattle.std.specs.Float.{binary32};
ghost use Rattle.float_steps.specs.Remainder.{rem_euclid_of, wrap_of};
ghost use Rattle.float_steps.specs.Words.{value_of};

use crate::words::{value, word};

// A finite value with the word w, its sign aside, is mantissa * 2 ^ shift of the format's smallest
// values, where the mantissa is w - shift * 0x80_0000.
fn shift(w: u32) -> u32
    ensures { result ≡ w / 0x80_0000 - 1 }
{
    (w / 0x80_0000).saturating_sub(1)
}

// The word of 2 ^ s of the smallest values.
#[tactic(auto, using(crate::proofs::ByMantissas::small_word, crate::proofs::ByMantissas::small_power, crate::proofs::ByMantissas::large_power))]
fn power(s: u32) -> u32
    requires { s < 254 }
    ensures { (result < 0x7f80_0000) × ((result - (result / 0x80_0000 - 1) * 0x80_0000) * 2 ^ (result / 0x80_0000 - 1) ≡ 2 ^ s) }
{
    if s < 23 { 1 << s } else { (s - 22) * 0x80_0000 }
}

// The remainder of a * 2 ^ k by b, 32 places at a time. A `for` over 0..k / 32 is unrolled by the compiler, and then takes 5% more time.
#[tactic(auto, using(crate::proofs::ByMantissas::one_reduced, crate::proofs::ByMantissas::all_reduced))]
fn reduced(a: u32, b: u32, k: u32) -> u32
    requires { (a < 0x100_0000) × (0 < b) × (b < 0x100_0000) }
    ensures { result ≡ a * 2 ^ k % b }
{
    let divisor = u64::from(b);
    let mut r = u64::from(a);
    let mut left = k;
    while left >= 32 {
        r = (r << 32) % divisor;
        left -= 32;
    }
    ((r << left) % divisor) as u32
}

// The remainder of two finite values by their words. In units of the divisor's exponent it is a
// whole number below the divisor's mantissa, so the product at the end is exact.
#[tactic(auto, using(crate::proofs::ByMantissas::smaller_shift, crate::proofs::ByMantissas::reduced_shift, crate::proofs::ByMantissas::signed))]
fn rem_finite(a: u32, b: u32) -> f32
    requires { (a % 0x8000_0000 < 0x7f80_0000) × (b % 0x8000_0000 < 0x7f80_0000) × (0 < b % 0x8000_0000) }
    ensures { result ≡ Ieee.rem binary32 (value_of a) (value_of b) }
{
    let x = a % 0x8000_0000;
    let y = b % 0x8000_0000;
    let s = shift(x);
    let t = shift(y);
    if s < t {
        return value(a);
    }
    let r = reduced(x - s * 0x80_0000, y - t * 0x80_0000, s - t);
    (r as f32) * value(power(t) + (a - x))
}

// The remainder of two values by their words.
#[tactic(auto, using(crate::proofs::ByMantissas::rem_of_endless, crate::proofs::ByMantissas::rem_by_zero, crate::proofs::ByMantissas::rem_by_nan, crate::proofs::ByMantissas::rem_by_inf))]
fn rem_words(a: u32, b: u32) -> f32
    ensures { result ≡ Ieee.rem binary32 (value_of a) (value_of b) }
{
    let y = b % 0x8000_0000;
    if a % 0x8000_0000 >= 0x7f80_0000 || y == 0 || y > 0x7f80_0000 {
        f32::NAN
    } else if y == 0x7f80_0000 {
        value(a)
    } else {
        rem_finite(a, b)
    }
}

// The remainder of v by m that Rust writes `v % m`: it has v's sign. A v between -m and m is its own
// remainder, which is the common case where m is a constant. No `%` stands here, since on floats it is
// compiled to a call of C's fmodf; the remainder is exact, and whole numbers give it without a library.
#[tactic(auto, using(crate::proofs::OwnRemainder::between, crate::proofs::Patterns::value_of_word))]
pub fn rem(v: f32, m: f32) -> f32
    ensures { result ≡ Ieee.rem binary32 v m }
{
    if -m < v && v < m {
        v
    } else {
        rem_words(word(v), word(m))
    }
}

// `v.rem_euclid(m)`, for an m above zero.
#[tactic(auto, unfolding(crate::specs::Remainder::rem_euclid_of))]
pub fn rem_euclid(v: f32, m: f32) -> f32
    ensures { result ≡ rem_euclid_of v m }
{
    let r = rem(v, m);
    if r < 0.0 { r + m } else { r }
}

// A value wrapped into 0 to 1; a whole number from 1 on wraps to 1.
#[tactic(auto, unfolding(crate::specs::Remainder::wrap_of))]
pub fn wrap(v: f32) -> f32
    ensures { result ≡ wrap_of v }
{
    let w = rem_euclid(v, 1.0);
    if v >= 1.0 && w == 0.0 { 1.0 } else { w }
}
