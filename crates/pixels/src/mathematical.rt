// The mathematical operators, the arm `op` (composite.rs 824 to 850) and `blend_inner` (composite.rs 957 to 1031): the operator chooses the blend of a
// channel, its convention how the blend is combined with the alphas. An operator that is not mathematical has the Rust's `_ => s`. `paint` names operator
// and convention at each call, so that nothing of the two matches is left in compiled code.
ghost use Rattle.std.specs.Prelude.{◌≡◌};
ghost use Rattle.operators.specs.Operators.{convention};
ghost use Rattle.operators.specs.declared.Convention.TheVariants as C;
ghost use Rattle.float_steps.specs.Remainder.{wrap_of};
ghost use Rattle.pixels.specs.Channel.{channel_of};
ghost use Rattle.pixels.specs.Pixel.{blend_of, under_convention, mathematical_of};

use crate::Params;
use crate::conventions::{divided, on_premult, over_alpha, premult, premult_only};
use blends::blend;
use float_steps::{order, remainder, sign};
use operators::{CompositeOp as O, Convention as By};
use pictures::Rgba;

// What the operator makes of a channel s of the source and d of the destination.
fn blend_inner(op: O, p: Params, s: f32, d: f32) -> f32
    ensures { result ≡ blend_of op p s d }
{
    match op {
        O::Multiply => s * d,
        O::Screen => s + d - s * d,
        O::Overlay => blend::hard_light(d, s),
        O::Darken => order::smaller(s, d),
        O::Lighten => order::larger(s, d),
        O::Difference => sign::abs(s - d),
        O::HardLight => blend::hard_light(s, d),
        O::SoftLight => blend::soft_light(s, d),
        O::ColorDodge => blend::color_dodge(s, d),
        O::ColorBurn => blend::color_burn(s, d),
        O::MinusDst => s - d,
        O::MinusSrc => d - s,
        O::DivideDst => blend::divide(s, d),
        O::DivideSrc => blend::divide(d, s),
        O::Exclusion => s + d - 2.0 * s * d,
        O::LinearBurn => s + d - 1.0,
        O::LinearDodge => s + d,
        O::LinearLight => d + 2.0 * s - 1.0,
        O::VividLight => blend::vivid_light(s, d),
        O::PinLight => blend::pin_light(s, d),
        O::HardMix => blend::hard_mix(s, d),
        O::PegtopLight => (1.0 - 2.0 * s) * d * d + 2.0 * s * d,
        O::SoftBurn => blend::color_burn(s, d),
        O::SoftDodge => blend::color_dodge(s, d),
        O::Stamp => s + d - 1.0,
        O::Freeze => blend::freeze(s, d),
        O::Reflect => blend::reflect(s, d),
        O::Negate => blend::negate(s, d),
        O::Mathematics => p.a * s * d + p.b * s + p.c * d + p.d,
        _ => s,
    }
}

// One colour channel under a convention. Under OnPremult and PremultOnly the blend is of the colours already multiplied by alpha.
fn channel(by: By, op: O, p: Params, s: f32, d: f32, sa: f32, da: f32) -> f32
    ensures { result ≡ channel_of by (blend_of op p) s d sa da }
{
    match by {
        By::Premult => premult(blend_inner(op, p, s, d), s, d, sa, da),
        By::Divided => divided(blend_inner(op, p, s, d), s, d, sa, da),
        By::OnPremult => on_premult(blend_inner(op, p, s * sa, d * da), s, d, sa, da),
        By::PremultOnly => premult_only(blend_inner(op, p, s * sa, d * da)),
    }
}

// The three colour channels, beside an alpha of their own. Written out, and not by `on_colours`: with a closure a call stays at each channel, and ModulusAdd
// takes 1.6 times as long.
fn beside_alpha(by: By, op: O, p: Params, s: Rgba, d: Rgba, a: f32) -> Rgba
    ensures { result ≡ under_convention by op p s d a }
{
    Rgba {
        r: channel(by, op, p, s.r, d.r, s.a, d.a),
        g: channel(by, op, p, s.g, d.g, s.a, d.a),
        b: channel(by, op, p, s.b, d.b, s.a, d.a),
        a,
    }
}

// A mathematical operator with the union alpha. Its convention is named beside it, as a constant, for the compiler's sake.
pub fn mathematical(by: By, op: O, p: Params, s: Rgba, d: Rgba) -> Rgba
    requires { by ≡ convention op }
    ensures { result ≡ mathematical_of op p s d }
{
    beside_alpha(by, op, p, s, d, over_alpha(s.a, d.a))
}

// ModulusAdd and ModulusSubtract: the alpha a is wrapped, and the colours are not. Document 01: "they wrap only alpha and take the source's colour
// times its alpha."
pub fn modulus(op: O, p: Params, s: Rgba, d: Rgba, a: f32) -> Rgba
    ensures { result ≡ under_convention C.PremultOnly op p s d (wrap_of a) }
{
    beside_alpha(By::PremultOnly, op, p, s, d, remainder::wrap(a))
}
