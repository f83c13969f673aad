// `pixel` of composite.rs: one pixel of the source on one of the destination, for each operator. Its contract cites crates/pixels/specs/Pixel.antt.
// The match chooses an operator's function; a mathematical operator names its convention, and itself for its blend. Interpolate is not carried;
// Displace, Distort and Blur have composite.rs's line, and composition goes another way for them.
#![tactic(auto)]

ghost use Rattle.std.specs.Prelude.{◌≡◌};
ghost use Rattle.pixels.specs.Pixel.{pixel_of};

use operators::{CompositeOp as O, Convention as By};
use pictures::Rgba;
use pixels::mathematical::{mathematical as math, modulus};
use pixels::{Params, colours as c, porter_duff as pd};

// One pixel of the source on one of the destination, both straight RGBA.
pub fn paint(op: O, p: Params, s: Rgba, d: Rgba) -> Rgba
    ensures { result ≡ pixel_of op p s d }
{
    match op {
        O::Over => pd::over(s, d),
        O::In => pd::src_in(s, d),
        O::Out => pd::src_out(s, d),
        O::Atop => pd::atop(s, d),
        O::Xor => pd::xor(s, d),
        O::Plus => pd::plus(s, d),
        O::Multiply => math(By::Premult, O::Multiply, p, s, d),
        O::Screen => math(By::Premult, O::Screen, p, s, d),
        O::Overlay => math(By::Divided, O::Overlay, p, s, d),
        O::Darken => math(By::OnPremult, O::Darken, p, s, d),
        O::Lighten => math(By::Premult, O::Lighten, p, s, d),
        O::Difference => math(By::Premult, O::Difference, p, s, d),
        O::HardLight => math(By::Divided, O::HardLight, p, s, d),
        O::SoftLight => math(By::Divided, O::SoftLight, p, s, d),
        O::ColorDodge => math(By::Divided, O::ColorDodge, p, s, d),
        O::ColorBurn => math(By::Divided, O::ColorBurn, p, s, d),
        O::Clear => Rgba::CLEAR,
        O::Src => s,
        O::Dst | O::Interpolate | O::Displace | O::Distort | O::Blur => d,
        O::DstOver => pd::dst_over(s, d),
        O::DstIn => pd::dst_in(s, d),
        O::DstOut => pd::dst_out(s, d),
        O::DstAtop => pd::dst_atop(s, d),
        O::MinusDst => math(By::Divided, O::MinusDst, p, s, d),
        O::MinusSrc => math(By::Divided, O::MinusSrc, p, s, d),
        O::DivideDst => math(By::OnPremult, O::DivideDst, p, s, d),
        O::DivideSrc => math(By::OnPremult, O::DivideSrc, p, s, d),
        O::ModulusAdd => modulus(O::ModulusAdd, p, s, d, s.a + d.a),
        O::ModulusSubtract => modulus(O::ModulusSubtract, p, s, d, s.a - d.a),
        O::Exclusion => math(By::PremultOnly, O::Exclusion, p, s, d),
        O::LinearBurn => math(By::Premult, O::LinearBurn, p, s, d),
        O::LinearDodge => math(By::Divided, O::LinearDodge, p, s, d),
        O::LinearLight => math(By::Divided, O::LinearLight, p, s, d),
        O::VividLight => math(By::Divided, O::VividLight, p, s, d),
        O::PinLight => math(By::Divided, O::PinLight, p, s, d),
        O::HardMix => math(By::Divided, O::HardMix, p, s, d),
        O::PegtopLight => math(By::Divided, O::PegtopLight, p, s, d),
        O::SoftBurn => math(By::Divided, O::SoftBurn, p, s, d),
        O::SoftDodge => math(By::Divided, O::SoftDodge, p, s, d),
        O::Stamp => math(By::Premult, O::Stamp, p, s, d),
        O::Freeze => math(By::Divided, O::Freeze, p, s, d),
        O::Reflect => math(By::Divided, O::Reflect, p, s, d),
        O::Negate => math(By::PremultOnly, O::Negate, p, s, d),
        O::Mathematics => math(By::Divided, O::Mathematics, p, s, d),
        O::Blend => pd::blend(p, s, d),
        O::Dissolve => pd::dissolve(p, s, d),
        O::Rmse => c::rmse(s, d),
        O::DarkenIntensity => c::where_darker(s, d, s, d),
        O::LightenIntensity => c::where_darker(d, s, s, d),
        O::Hue => c::coloured(s, d, d, s, d),
        O::Saturate => c::coloured(d, s, d, s, d),
        O::Luminize => c::coloured(d, d, s, s, d),
        O::Colorize => c::coloured(s, s, d, s, d),
        O::CopyRed | O::CopyCyan => c::copy_red(s, d),
        O::CopyGreen | O::CopyMagenta => c::copy_green(s, d),
        O::CopyBlue | O::CopyYellow => c::copy_blue(s, d),
        O::CopyAlpha => c::copy_alpha(s, d),
        O::CopyBlack => c::copy_black(s, d),
        O::ChangeMask => c::change_mask(p, s, d),
        O::Bumpmap => c::bumpmap(s, d),
        O::Threshold => c::threshold(p, s, d),
        O::Intensity => c::intensity_of(s, d),
        O::Modulate => c::modulate(p, s, d),
    }
}
