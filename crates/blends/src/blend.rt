// The blend functions that branch: s is one colour channel of the source, d that of the destination.
ghost use Rattle.std.specs.Prelude.{◌≡◌};
ghost use Rattle.float_steps.specs.Notation.{◌⊖◌, f1};
ghost use Rattle.float_steps.specs.Sign.{abs_of};
ghost use Rattle.blends.specs.Blends.{hard_light_of, curve_of, soft_light_of, color_dodge_of, color_burn_of, divide_of, vivid_light_of, pin_light_of, hard_mix_of, freeze_of, reflect_of};

use float_steps::{order, root, sign};

pub fn negate(s: f32, d: f32) -> f32
    ensures { result ≡ f1 ⊖ abs_of (f1 ⊖ s ⊖ d) }
{
    1.0 - sign::abs(1.0 - s - d)
}

#[tactic(auto, unfolding(crate::specs::Blends::hard_light_of))]
pub fn hard_light(s: f32, d: f32) -> f32
    ensures { result ≡ hard_light_of s d }
{
    if s < 0.5 {
        2.0 * s * d
    } else {
        let s2 = 2.0 * s - 1.0;
        s2 + d - s2 * d
    }
}

// The curve of soft_light above a half.
#[tactic(auto, unfolding(crate::specs::Blends::curve_of))]
fn curve(d: f32) -> f32
    ensures { result ≡ curve_of d }
{
    if d <= 0.25 {
        ((16.0 * d - 12.0) * d + 4.0) * d
    } else {
        root::sqrt(d)
    }
}

#[tactic(auto, unfolding(crate::specs::Blends::soft_light_of))]
pub fn soft_light(s: f32, d: f32) -> f32
    ensures { result ≡ soft_light_of s d }
{
    if s <= 0.5 {
        d - (1.0 - 2.0 * s) * d * (1.0 - d)
    } else {
        d + (2.0 * s - 1.0) * (curve(d) - d)
    }
}

#[tactic(auto, unfolding(crate::specs::Blends::color_dodge_of))]
pub fn color_dodge(s: f32, d: f32) -> f32
    ensures { result ≡ color_dodge_of s d }
{
    if d <= 0.0 {
        0.0
    } else if s >= 1.0 {
        1.0
    } else {
        order::smaller(d / (1.0 - s), 1.0)
    }
}

// Black is tested before white: a black source burns to black even over white.
#[tactic(auto, unfolding(crate::specs::Blends::color_burn_of))]
pub fn color_burn(s: f32, d: f32) -> f32
    ensures { result ≡ color_burn_of s d }
{
    if s <= 0.0 {
        0.0 // black, over white too
    } else if 1.0 <= d {
        1.0 // white
    } else {
        1.0 - order::smaller((1.0 - d) / s, 1.0)
    }
}

#[tactic(auto, unfolding(crate::specs::Blends::divide_of))]
pub fn divide(num: f32, den: f32) -> f32
    ensures { result ≡ divide_of num den }
{
    if den <= 0.0 {
        if num <= 0.0 { 0.0 } else { 1.0 }
    } else {
        num / den
    }
}

#[tactic(auto, unfolding(crate::specs::Blends::vivid_light_of))]
pub fn vivid_light(s: f32, d: f32) -> f32
    ensures { result ≡ vivid_light_of s d }
{
    if s < 0.5 {
        color_burn(2.0 * s, d)
    } else {
        color_dodge(2.0 * s - 1.0, d)
    }
}

#[tactic(auto, unfolding(crate::specs::Blends::pin_light_of))]
pub fn pin_light(s: f32, d: f32) -> f32
    ensures { result ≡ pin_light_of s d }
{
    if s < 0.5 {
        order::smaller(d, 2.0 * s)
    } else {
        order::larger(d, 2.0 * s - 1.0)
    }
}

#[tactic(auto, unfolding(crate::specs::Blends::hard_mix_of))]
pub fn hard_mix(s: f32, d: f32) -> f32
    ensures { result ≡ hard_mix_of s d }
{
    if order::unit(vivid_light(s, d)) < 0.5 {
        0.0
    } else {
        1.0
    }
}

#[tactic(auto, unfolding(crate::specs::Blends::freeze_of))]
pub fn freeze(s: f32, d: f32) -> f32
    ensures { result ≡ freeze_of s d }
{
    if d <= 0.0 {
        0.0
    } else {
        1.0 - (1.0 - s) * (1.0 - s) / d
    }
}

#[tactic(auto, unfolding(crate::specs::Blends::reflect_of))]
pub fn reflect(s: f32, d: f32) -> f32
    ensures { result ≡ reflect_of s d }
{
    if d >= 1.0 { 1.0 } else { s * s / (1.0 - d) }
}
