// The square root, by whole numbers (docs/TRACE.md, "The form each place takes"): the processor's instruction for it is not trusted.
ghost use Rattle.std.specs.Prelude.{◌≡◌, ◌+◌, ◌*◌, ◌^◌, ◌<◌, ◌≤◌, ◌↔◌, IsTrue};
ghost use Rattle.float_steps.specs.Root.{IsRoot, nearest_root, sqrt_of};
ghost use Rattle.float_steps.specs.Words.{value_of};

use crate::words::{value, word};
use std::num::f64_to_bits_with_nan;

// A guess at the root of n: for an n of 49 or 50 digits the root or one less, by one step of Halley's
// from a cubic, and read off the digits of the sum with 2 ^ 52. Nothing rests on it but the speed.
fn guess(n: u64) -> u64
    requires { n ≤ 2 ^ 53 }
    ensures { result < 0xffff_fffe }
{
    let x = n as f64;
    let a = (7281950.786440425 + x * 3.941540651094282e-8)
        + (x * x) * (x * 6.755980878539484e-39 - 2.1860987132479933e-23);
    let q = a * a;
    let sum = (a * (q + 3.0 * x) / (3.0 * q + x) - 0.52) + 4503599627370496.0;
    let g = f64_to_bits_with_nan(sum) % 0x1_0000_0000;
    if g < 0xffff_fffe { g } else { 0 }
}

// Whether r is the largest number with r * r <= n.
fn is_root(r: u64, n: u64) -> bool
    requires { r < 0xffff_ffff }
    ensures { IsTrue result ↔ IsRoot r n }
{
    r * r <= n && n < (r + 1) * (r + 1)
}

// The largest r with r * r <= n: the guess, or the number after it, where its square and the next
// one say so, and by bisection otherwise.
fn whole_root(n: u64) -> u64
    requires { n ≤ 2 ^ 53 }
    ensures { IsRoot result n }
{
    let g = guess(n);
    if is_root(g, n) {
        g
    } else if is_root(g + 1, n) {
        g + 1
    } else {
        n.isqrt()
    }
}

// The word of the root of m * 2 ^ (scale - 277). The radicand has 49 or 50 digits, so its root has
// 25, one more than is kept.
#[tactic(auto, using(crate::proofs::NearestRoot::mantissa_word))]
fn root_of_mantissa(m: u32, scale: u32) -> u32
    requires { (0x80_0000 ≤ m) × (m < 0x100_0000) × (105 ≤ scale) × (scale < 382) }
    ensures { value_of result ≡ nearest_root (m * 2 ^ (scale + 21)) }
{
    let radicand = u64::from(m) * 0x200_0000 * u64::from(1 + scale % 2);
    let r = whole_root(radicand);
    (scale / 2 - 1) * 0x80_0000 + (((r + 1) / 2) as u32)
}

// The word of the root of the finite value above zero that has the word w. The leading zeros of a
// subnormal value's mantissa say how far it is moved up, to 24 digits.
#[tactic(auto, using(crate::proofs::Radicand::here, crate::proofs::Radicand::asked, crate::proofs::Radicand::given, crate::proofs::Radicand::sqrt_normal))]
fn root_word(w: u32) -> u32
    requires { (0 < w) × (w < 0x7f80_0000) }
    ensures { value_of result ≡ sqrt_of (value_of w) }
{
    let exponent = w / 0x80_0000;
    let mantissa = w % 0x80_0000;
    if exponent == 0 {
        let zeros = mantissa.leading_zeros() - 8;
        root_of_mantissa(mantissa << zeros, 128 - zeros)
    } else {
        root_of_mantissa(mantissa + 0x80_0000, exponent + 127)
    }
}

// `v.sqrt()`: the nearest f32, ties to even; of a negative value or a NaN a NaN, of a zero or plus
// infinity itself.
#[tactic(auto, using(crate::proofs::RootEnds::sqrt_below, crate::proofs::RootEnds::sqrt_own, crate::proofs::RootEnds::sqrt_endless, crate::proofs::RootEnds::above_word, crate::proofs::Patterns::value_of_word))]
pub fn sqrt(v: f32) -> f32
    ensures { result ≡ sqrt_of v }
{
    if v < 0.0 {
        f32::NAN
    } else if v > 0.0 && v < f32::INFINITY {
        value(root_word(word(v)))
    } else {
        v
    }
}
