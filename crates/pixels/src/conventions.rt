// The four conventions of the mathematical operators, for one channel, the arm `op` (composite.rs 824 to 850): b is the blended channel.
// A channel of the source and one of the destination with the two alphas are four parameters, as in composite.rs: a struct would be taken apart in each line.
ghost use Rattle.std.specs.Prelude.{◌≡◌};
ghost use Rattle.pixels.specs.Channel.{over_alpha_of, premult_by, over_union_of, divided_by, on_premult_by, premult_only_by};

use float_steps::order::unit;

// The union alpha.
pub fn over_alpha(sa: f32, da: f32) -> f32
    ensures { result ≡ over_alpha_of sa da }
{
    sa + da - sa * da
}

// v / a where a is above 0, else 0.
#[tactic(auto, unfolding(crate::specs::Channel::over_union_of))]
pub fn over_union(v: f32, a: f32) -> f32
    ensures { result ≡ over_union_of v a }
{
    if a > 0.0 { v / a } else { 0.0 }
}

pub fn premult(b: f32, s: f32, d: f32, sa: f32, da: f32) -> f32
    ensures { result ≡ premult_by b s d sa da }
{
    unit(sa * da * unit(b) + (sa * (1.0 - da) * s + da * (1.0 - sa) * d))
}

pub fn divided(b: f32, s: f32, d: f32, sa: f32, da: f32) -> f32
    ensures { result ≡ divided_by b s d sa da }
{
    unit(over_union(
        sa * da * b + (sa * (1.0 - da) * s + da * (1.0 - sa) * d),
        over_alpha(sa, da),
    ))
}

pub fn on_premult(b: f32, s: f32, d: f32, sa: f32, da: f32) -> f32
    ensures { result ≡ on_premult_by b s d sa da }
{
    unit(unit(b) + (sa * (1.0 - da) * s + da * (1.0 - sa) * d))
}

pub fn premult_only(b: f32) -> f32
    ensures { result ≡ premult_only_by b }
{
    unit(unit(b))
}
