// One coordinate of bilinear sampling.
ghost use Rattle.std.specs.Prelude.{◌≡◌, ◌≤◌};
ghost use Rattle.float_steps.specs.Axis.{held_of, axis_of};

use crate::order::clamp;
use crate::whole::floor;

// Where a coordinate falls on a side: the pixel at or before it, the one after, and how far along
// it is from the one to the other.
#[derive(Clone, Copy)]
pub struct Axis {
    pub at: usize,
    pub next: usize,
    pub along: f32,
}

// A coordinate held between 0 and hi; a NaN counts as 0.
#[tactic(auto, unfolding(crate::specs::Axis::held_of))]
fn held(x: f32, hi: f32) -> f32
    ensures { result ≡ held_of x hi }
{
    if x.is_nan() { 0.0 } else { clamp(x, 0.0, hi) }
}

// Where the coordinate x falls on a side of `side` pixels. Up to 2^24 each whole number is an f32.
#[tactic(auto, using(crate::proofs::AxisInside::floor_held, crate::proofs::WholePart::in_float_lem), unfolding(crate::specs::Axis::axis_of, crate::specs::Axis::axis_at))]
pub fn locate(x: f32, side: usize) -> Axis
    requires { (1 ≤ side) × (side ≤ 0x100_0000) }
    ensures { result ≡ axis_of x side }
{
    let last = side - 1;
    let v = held(x, last as f32);
    let at = floor(v) as usize;
    Axis {
        at,
        next: (at + 1).min(last),
        along: v - (at as f32),
    }
}
