// The two colour conversions, each a step to a function.
ghost use Rattle.std.specs.Prelude.{◌≡◌};
ghost use Rattle.blends.specs.Hsl.{saturation_of, hue_of, hsl_by, rgb_to_hsl_of, upper_of, ramp_of, channel_at, rgb_by, hsl_to_rgb_of};

use crate::{Hsl, Rgb};
use float_steps::{order, remainder};

#[tactic(auto, unfolding(crate::specs::Hsl::saturation_of))]
fn saturation(max: f32, min: f32, l: f32, d: f32) -> f32
    ensures { result ≡ saturation_of max min l d }
{
    if l > 0.5 {
        d / (2.0 - max - min)
    } else {
        d / (max + min)
    }
}

#[tactic(auto, unfolding(crate::specs::Hsl::hue_of))]
fn hue(c: Rgb, max: f32, d: f32) -> f32
    ensures { result ≡ hue_of c.r c.g c.b max d }
{
    if max == c.r {
        remainder::rem_euclid((c.g - c.b) / d, 6.0)
    } else if max == c.g {
        (c.b - c.r) / d + 2.0
    } else {
        (c.r - c.g) / d + 4.0
    }
}

// Of a colour whose largest and smallest channels are max and min.
#[tactic(auto, unfolding(crate::specs::Hsl::hsl_by))]
fn hsl_by(c: Rgb, max: f32, min: f32) -> Hsl
    ensures { result ≡ hsl_by c.r c.g c.b max min }
{
    let l = (max + min) * 0.5;
    let d = max - min;
    if d <= 0.000001 {
        Hsl { h: 0.0, s: 0.0, l }
    } else {
        Hsl {
            h: hue(c, max, d) / 6.0,
            s: saturation(max, min, l, d),
            l,
        }
    }
}

pub fn rgb_to_hsl(c: Rgb) -> Hsl
    ensures { result ≡ rgb_to_hsl_of c.r c.g c.b }
{
    let max = order::larger(order::larger(c.r, c.g), c.b);
    let min = order::smaller(order::smaller(c.r, c.g), c.b);
    hsl_by(c, max, min)
}

#[tactic(auto, unfolding(crate::specs::Hsl::upper_of))]
fn upper(s: f32, l: f32) -> f32
    ensures { result ≡ upper_of s l }
{
    if l < 0.5 {
        l * (1.0 + s)
    } else {
        l + s - l * s
    }
}

// A channel at t, from 0 to 1 around the circle of hues.
#[tactic(auto, unfolding(crate::specs::Hsl::ramp_of))]
fn ramp(p: f32, q: f32, t: f32) -> f32
    ensures { result ≡ ramp_of p q t }
{
    if t < 1.0 / 6.0 {
        p + (q - p) * 6.0 * t
    } else if t < 0.5 {
        q
    } else if t < 2.0 / 3.0 {
        p + (q - p) * (2.0 / 3.0 - t) * 6.0
    } else {
        p
    }
}

fn channel(p: f32, q: f32, h: f32) -> f32
    ensures { result ≡ channel_at p q h }
{
    ramp(p, q, remainder::rem_euclid(h, 1.0))
}

#[tactic(auto, unfolding(crate::specs::Hsl::rgb_by))]
fn rgb_by(c: Hsl, p: f32, q: f32) -> Rgb
    ensures { result ≡ rgb_by c p q }
{
    let h = c.h;
    Rgb {
        r: channel(p, q, h + 1.0 / 3.0),
        g: channel(p, q, h),
        b: channel(p, q, h - 1.0 / 3.0),
    }
}

#[tactic(auto, unfolding(crate::specs::Hsl::hsl_to_rgb_of))]
pub fn hsl_to_rgb(c: Hsl) -> Rgb
    ensures { result ≡ hsl_to_rgb_of c }
{
    let l = c.l;
    if c.s <= 0.0 {
        Rgb { r: l, g: l, b: l }
    } else {
        let q = upper(c.s, l);
        rgb_by(c, 2.0 * l - q, q)
    }
}
