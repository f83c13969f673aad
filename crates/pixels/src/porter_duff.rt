// Porter and Duff's operators, and the two weighted ones that rest on them: from `Clear` (composite.rs 654) to `Dissolve` (composite.rs 717 to 724), with
// `premult` (composite.rs 858 to 860), `straight_or_clear` (composite.rs 864 to 870) and `over` (composite.rs 879 to 892).
ghost use Rattle.std.specs.Prelude.{◌≡◌};
ghost use Rattle.operators.specs.declared.CompositeOp.TheVariants as O;
ghost use Rattle.pixels.specs.Channel.{over_channel, atop_channel, xor_channel, plus_channel};
ghost use Rattle.pixels.specs.Pixel.{pixel_of, premult_of, with_alpha, straight_or_clear_of, over_by, kept_where_clear, unused};

use crate::{Params, on_colours};
use float_steps::order::smaller;
use pictures::Rgba;

// A colour scaled by its weight, which is its alpha too.
fn premult(c: Rgba, w: f32) -> Rgba
    ensures { result ≡ premult_of c w }
{
    Rgba {
        r: c.r * w,
        g: c.g * w,
        b: c.b * w,
        a: w,
    }
}

fn with_alpha(c: Rgba, a: f32) -> Rgba
    ensures { result ≡ with_alpha c a }
{
    Rgba { a, ..c }
}

// A straight colour with alpha a, cleared to transparent black where a <= 0: not where it is NaN.
#[tactic(auto, unfolding(crate::specs::Pixel::straight_or_clear_of))]
fn straight_or_clear(c: Rgba, a: f32) -> Rgba
    ensures { result ≡ straight_or_clear_of c a }
{
    if a <= 0.0 {
        Rgba::CLEAR
    } else {
        with_alpha(c, a)
    }
}

fn over_channel(a: f32, s: f32, d: f32, sa: f32, da: f32) -> f32
    ensures { result ≡ over_channel a s d sa da }
{
    (s * sa + d * da * (1.0 - sa)) / a
}

// Over, with its alpha a.
#[tactic(auto, unfolding(crate::specs::Pixel::over_by))]
fn over_by(a: f32, s: Rgba, d: Rgba) -> Rgba
    ensures { result ≡ over_by a s d }
{
    if a <= 0.0 {
        with_alpha(d, 0.0)
    } else {
        on_colours(|x, y| over_channel(a, x, y, s.a, d.a), s, d, a)
    }
}

pub fn over(s: Rgba, d: Rgba) -> Rgba
    ensures { result ≡ pixel_of O.Over unused s d }
{
    let a = s.a + d.a * (1.0 - s.a);
    over_by(a, s, d)
}

// d where the pixel o is clear, else o.
#[tactic(auto, unfolding(crate::specs::Pixel::kept_where_clear))]
fn kept_where_clear(o: Rgba, d: Rgba) -> Rgba
    ensures { result ≡ kept_where_clear o d }
{
    if o.a <= 0.0 { with_alpha(d, 0.0) } else { o }
}

pub fn dst_over(s: Rgba, d: Rgba) -> Rgba
    ensures { result ≡ pixel_of O.DstOver unused s d }
{
    kept_where_clear(over(d, s), d)
}

pub fn src_in(s: Rgba, d: Rgba) -> Rgba
    ensures { result ≡ pixel_of O.In unused s d }
{
    premult(s, s.a * d.a)
}

pub fn src_out(s: Rgba, d: Rgba) -> Rgba
    ensures { result ≡ pixel_of O.Out unused s d }
{
    premult(s, s.a * (1.0 - d.a))
}

pub fn dst_in(s: Rgba, d: Rgba) -> Rgba
    ensures { result ≡ pixel_of O.DstIn unused s d }
{
    straight_or_clear(d, s.a * d.a)
}

pub fn dst_out(s: Rgba, d: Rgba) -> Rgba
    ensures { result ≡ pixel_of O.DstOut unused s d }
{
    straight_or_clear(d, d.a * (1.0 - s.a))
}

fn atop_channel(s: f32, d: f32, sa: f32, da: f32) -> f32
    ensures { result ≡ atop_channel s d sa da }
{
    s * sa * da + d * da * (1.0 - sa)
}

pub fn atop(s: Rgba, d: Rgba) -> Rgba
    ensures { result ≡ pixel_of O.Atop unused s d }
{
    on_colours(|x, y| atop_channel(x, y, s.a, d.a), s, d, d.a)
}

// Atop with the two pictures exchanged.
pub fn dst_atop(s: Rgba, d: Rgba) -> Rgba
    ensures { result ≡ pixel_of O.DstAtop unused s d }
{
    atop(d, s)
}

fn xor_channel(s: f32, d: f32, sa: f32, da: f32) -> f32
    ensures { result ≡ xor_channel s d sa da }
{
    s * sa * (1.0 - da) + d * da * (1.0 - sa)
}

pub fn xor(s: Rgba, d: Rgba) -> Rgba
    ensures { result ≡ pixel_of O.Xor unused s d }
{
    let a = s.a * (1.0 - d.a) + d.a * (1.0 - s.a);
    on_colours(|x, y| xor_channel(x, y, s.a, d.a), s, d, a)
}

fn plus_channel(s: f32, d: f32, sa: f32, da: f32) -> f32
    ensures { result ≡ plus_channel s d sa da }
{
    smaller(s * sa + d * da, 1.0)
}

pub fn plus(s: Rgba, d: Rgba) -> Rgba
    ensures { result ≡ pixel_of O.Plus unused s d }
{
    let a = smaller(s.a + d.a, 1.0);
    on_colours(|x, y| plus_channel(x, y, s.a, d.a), s, d, a)
}

pub fn blend(p: Params, s: Rgba, d: Rgba) -> Rgba
    ensures { result ≡ pixel_of O.Blend p s d }
{
    let a = smaller(s.a * p.a + d.a * p.b, 1.0);
    on_colours(|x, y| x * p.a + y * p.b, s, d, a)
}

pub fn dissolve(p: Params, s: Rgba, d: Rgba) -> Rgba
    ensures { result ≡ pixel_of O.Dissolve p s d }
{
    let sa = smaller(s.a * p.a, 1.0);
    let da = smaller(d.a * p.b, 1.0);
    over(with_alpha(s, sa), with_alpha(d, da))
}
