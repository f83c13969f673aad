// The operators on hue, saturation, lightness and intensity, and those that copy or compare single channels:
// from `Rmse` (composite.rs 725) to `Modulate` (composite.rs 799 to 811).
ghost use Rattle.std.specs.Prelude.{◌≡◌};
ghost use Rattle.blends.specs.Hsl.{hsl_of};
ghost use Rattle.operators.specs.declared.CompositeOp.TheVariants as O;
ghost use Rattle.pixels.specs.Channel.{coloured_channel, within_fuzz, threshold_channel};
ghost use Rattle.pixels.specs.Pixel.{pixel_of, intensity_of, gray_of, rmse_of, where_darker, hsl_at, coloured_by, coloured_of, matches, scaled_of, modulated_by, with_colour, unused};

use crate::conventions::{over_alpha, over_union};
use crate::{Params, on_colours};
use blends::conversions::{hsl_to_rgb, rgb_to_hsl};
use blends::{Hsl, Rgb};
use float_steps::order::unit;
use float_steps::root::sqrt;
use float_steps::sign::{abs, square};
use pictures::{Rgba, weights};

// Rec. 709 intensity.
fn intensity(p: Rgba) -> f32
    ensures { result ≡ intensity_of p }
{
    weights::RED * p.r + weights::GREEN * p.g + weights::BLUE * p.b
}

fn gray(v: f32, a: f32) -> Rgba
    ensures { result ≡ gray_of v a }
{
    Rgba {
        r: v,
        g: v,
        b: v,
        a,
    }
}

// The root of the mean square of the three channels' differences.
fn root_mean_square(s: Rgba, d: Rgba) -> f32
    ensures { result ≡ rmse_of s d }
{
    sqrt((square(s.r - d.r) + square(s.g - d.g) + square(s.b - d.b)) / 3.0)
}

pub fn rmse(s: Rgba, d: Rgba) -> Rgba
    ensures { result ≡ pixel_of O.Rmse unused s d }
{
    gray(root_mean_square(s, d), over_alpha(s.a, d.a))
}

// s where x is darker than y, each by its coverage, else d: DarkenIntensity, and LightenIntensity with x and y exchanged.
#[tactic(auto, unfolding(crate::specs::Pixel::where_darker))]
pub fn where_darker(x: Rgba, y: Rgba, s: Rgba, d: Rgba) -> Rgba
    ensures { result ≡ where_darker x y s d }
{
    if intensity(x) * x.a < intensity(y) * y.a {
        s
    } else {
        d
    }
}

fn hsl_at(p: Rgba) -> Hsl
    ensures { result ≡ hsl_at p }
{
    rgb_to_hsl(Rgb {
        r: p.r,
        g: p.g,
        b: p.b,
    })
}

fn coloured_channel(v: f32, d: f32, sa: f32, da: f32) -> f32
    ensures { result ≡ coloured_channel v d sa da }
{
    over_union(v * sa + d * da * (1.0 - sa), over_alpha(sa, da))
}

// The colour c over the destination, by the source's coverage.
fn coloured_by(c: Rgb, s: Rgba, d: Rgba) -> Rgba
    ensures { result ≡ coloured_by c s d }
{
    Rgba {
        r: coloured_channel(c.r, d.r, s.a, d.a),
        g: coloured_channel(c.g, d.g, s.a, d.a),
        b: coloured_channel(c.b, d.b, s.a, d.a),
        a: over_alpha(s.a, d.a),
    }
}

// Hue, Saturate, Luminize and Colorize: the hue of one pixel, the saturation of another and the lightness of a third, over the destination.
pub fn coloured(h: Rgba, sat: Rgba, l: Rgba, s: Rgba, d: Rgba) -> Rgba
    ensures { result ≡ coloured_of (hsl_of (hsl_at h).h (hsl_at sat).s (hsl_at l).l) s d }
{
    let x = hsl_at(h);
    let y = hsl_at(sat);
    let z = hsl_at(l);
    let c = Hsl {
        h: x.h,
        s: y.s,
        l: z.l,
    };
    coloured_by(hsl_to_rgb(c), s, d)
}

// Four functions copy a channel each: they differ in a field's name, which is no parameter.
// CopyCyan on an RGB picture too.
pub fn copy_red(s: Rgba, d: Rgba) -> Rgba
    ensures { result ≡ pixel_of O.CopyRed unused s d }
{
    Rgba { r: s.r, ..d }
}

// CopyMagenta on an RGB picture too.
pub fn copy_green(s: Rgba, d: Rgba) -> Rgba
    ensures { result ≡ pixel_of O.CopyGreen unused s d }
{
    Rgba { g: s.g, ..d }
}

// CopyYellow on an RGB picture too.
pub fn copy_blue(s: Rgba, d: Rgba) -> Rgba
    ensures { result ≡ pixel_of O.CopyBlue unused s d }
{
    Rgba { b: s.b, ..d }
}

pub fn copy_alpha(s: Rgba, d: Rgba) -> Rgba
    ensures { result ≡ pixel_of O.CopyAlpha unused s d }
{
    Rgba { a: s.a, ..d }
}

pub fn copy_black(s: Rgba, d: Rgba) -> Rgba
    ensures { result ≡ pixel_of O.CopyBlack unused s d }
{
    gray(intensity(s), d.a)
}

// The operator Intensity.
pub fn intensity_of(s: Rgba, d: Rgba) -> Rgba
    ensures { result ≡ pixel_of O.Intensity unused s d }
{
    gray(intensity(s), over_alpha(s.a, d.a))
}

pub fn bumpmap(s: Rgba, d: Rgba) -> Rgba
    ensures { result ≡ pixel_of O.Bumpmap unused s d }
{
    let i = intensity(s);
    Rgba {
        r: d.r * i,
        g: d.g * i,
        b: d.b * i,
        a: d.a,
    }
}

fn within_fuzz(fuzz: f32, s: f32, d: f32) -> bool
    ensures { result ≡ within_fuzz fuzz s d }
{
    abs(s - d) <= fuzz + 0.000001
}

// Whether all four channels lie within the fuzz.
fn matching(fuzz: f32, s: Rgba, d: Rgba) -> bool
    ensures { result ≡ matches fuzz s d }
{
    within_fuzz(fuzz, s.r, d.r)
        && within_fuzz(fuzz, s.g, d.g)
        && within_fuzz(fuzz, s.b, d.b)
        && within_fuzz(fuzz, s.a, d.a)
}

#[tactic(auto, unfolding(crate::specs::Pixel::change_mask_of))]
pub fn change_mask(p: Params, s: Rgba, d: Rgba) -> Rgba
    ensures { result ≡ pixel_of O.ChangeMask p s d }
{
    if matching(p.a, s, d) {
        Rgba { a: 0.0, ..d }
    } else {
        d
    }
}

#[tactic(auto, unfolding(crate::specs::Channel::threshold_channel))]
fn threshold_channel(threshold: f32, amount: f32, s: f32, d: f32) -> f32
    ensures { result ≡ threshold_channel threshold amount s d }
{
    let delta = s - d;
    if abs(delta) >= threshold {
        d + delta * amount
    } else {
        d
    }
}

pub fn threshold(p: Params, s: Rgba, d: Rgba) -> Rgba
    ensures { result ≡ pixel_of O.Threshold p s d }
{
    on_colours(|x, y| threshold_channel(p.a, p.b, x, y), s, d, d.a)
}

fn scaled(v: f32, i: f32, by: f32) -> f32
    ensures { result ≡ scaled_of v i by }
{
    unit(v * (1.0 + 2.0 * i * by))
}

// The hue, saturation and lightness c, the last two scaled.
fn modulated(i: f32, c: Hsl, p: Params) -> Rgb
    ensures { result ≡ modulated_by i c p }
{
    let t = Hsl {
        h: c.h,
        s: scaled(c.s, i, p.b),
        l: scaled(c.l, i, p.a),
    };
    hsl_to_rgb(t)
}

fn with_colour(c: Rgb, a: f32) -> Rgba
    ensures { result ≡ with_colour c a }
{
    Rgba {
        r: c.r,
        g: c.g,
        b: c.b,
        a,
    }
}

pub fn modulate(p: Params, s: Rgba, d: Rgba) -> Rgba
    ensures { result ≡ pixel_of O.Modulate p s d }
{
    let i = intensity(s) - 0.5;
    with_colour(modulated(i, hsl_at(d), p), d.a)
}
