// From a value to a whole number.
ghost use Rattle.std.specs.Prelude.{◌≡◌};
ghost use Rattle.float_steps.specs.Whole.{floor_of, round_byte_of, byte_of};

use crate::order::unit;
use std::num::truncating_f32_to_u64;

// `v.floor() as usize`. std's `saturating_f32_to_u64` widens to an f64 first, and takes 4% more time a coordinate.
#[tactic(auto, using(crate::proofs::WholePart::cut_low, crate::proofs::WholePart::cut_high, crate::proofs::WholePart::floor_cut, crate::proofs::WholePart::floor_high, crate::proofs::WholePart::floor_low))]
pub fn floor(v: f32) -> u64
    ensures { result ≡ floor_of v }
{
    if v > -1.0 {
        if v < 18446744073709551616.0 {
            truncating_f32_to_u64(v)
        } else {
            u64::MAX
        }
    } else {
        0
    }
}

// `x.round() as u8`, by the floor of twice the value: halves go up. With std's `round` a byte takes twice the time.
#[tactic(auto, using(crate::proofs::WholePart::byte_high, crate::proofs::WholePart::byte_nought, crate::proofs::WholePart::mid_floor, crate::proofs::WholePart::mid_small, crate::proofs::WholePart::mid_byte))]
fn round_byte(x: f32) -> u8
    ensures { result ≡ round_byte_of x }
{
    if x >= 255.0 {
        255
    } else if x > 0.0 {
        ((floor(x * 2.0) + 1) / 2) as u8
    } else {
        0
    }
}

// The byte of a sample, as `narrow_u8` makes it.
#[tactic(auto, unfolding(crate::specs::Whole::byte_of))]
pub fn byte(v: f32) -> u8
    ensures { result ≡ byte_of v }
{
    round_byte(unit(v) * 255.0)
}
