// Smaller, larger, clamp, and whether a value is finite.
ghost use Rattle.std.specs.Prelude.{◌≡◌};
ghost use Rattle.float_steps.specs.Order.{smaller_of, larger_of, clamp_of, unit_of, finite_of};

// `a.min(b)`: a NaN yields the other operand, and equal values the first, where std leaves open which zero it is.
#[tactic(auto, unfolding(crate::specs::Order::smaller_of))]
pub fn smaller(a: f32, b: f32) -> f32
    ensures { result ≡ smaller_of a b }
{
    if a.is_nan() || b < a { b } else { a }
}

// `a.max(b)`: a NaN yields the other operand, and equal values the first. Beside `smaller`, since a function for both would be handed the comparison.
#[tactic(auto, unfolding(crate::specs::Order::larger_of))]
pub fn larger(a: f32, b: f32) -> f32
    ensures { result ≡ larger_of a b }
{
    if a.is_nan() || a < b { b } else { a }
}

// `v.clamp(lo, hi)`: a NaN stays. It has a result for each two bounds, where std's asks that lo is at most hi.
#[tactic(auto, unfolding(crate::specs::Order::clamp_of))]
pub fn clamp(v: f32, lo: f32, hi: f32) -> f32
    ensures { result ≡ clamp_of v lo hi }
{
    if v < lo {
        lo
    } else if v > hi {
        hi
    } else {
        v
    }
}

// `v.clamp(0.0, 1.0)`.
pub fn unit(v: f32) -> f32
    ensures { result ≡ unit_of v }
{
    clamp(v, 0.0, 1.0)
}

// `v.is_finite()`: strictly between the infinities.
#[tactic(auto, using(crate::proofs::Finite::finite_is))]
pub fn finite(v: f32) -> bool
    ensures { result ≡ finite_of v }
{
    v.is_finite()
}
