// One pixel of the result, in three parts: where it reads, its result, and what is written of that. Everything that a layer decides once stands in its plan.
// A plan is a layer's, x and y are a pixel's: they are handed on side by side.
ghost use Rattle.std.specs.Prelude.{◌≡◌, ◌*◌, ◌<◌, ◌≤◌, length};
ghost use Rattle.layers.specs.GoodLayers.{Picture};
ghost use Rattle.layers.specs.Windows.{holds};
ghost use Rattle.pictures.specs.Steps.{values_at};
ghost use Rattle.places.specs.Bounds.{slack, Under};
ghost use Rattle.float_steps.specs.Axis.{axis_of};
ghost use Rattle.compose.specs.Compose.{source_pixel, map_coordinate, written_word, written_of};
ghost use Rattle.compose.specs.Plans.{index_by, covers_by, mapped_by, painted_by, result_by, composed_by};
ghost use Rattle.compose.specs.Ready.{Ready, Beneath};

use crate::Plan;
use float_steps::axis::{Axis, locate};
use float_steps::words::word;
use layers::ChannelMask;
use paint::paint;
use pictures::bilinear::{mix, neighbours};
use pictures::widen::{rgba_at, values};
use pictures::{Rgba, Words};
use places::source_index;

// Whether the layer's window holds the pixel (x, y).
pub fn in_window(p: Plan, x: usize, y: usize) -> bool
    ensures { result ≡ holds p.window x y }
{
    p.window.holds(x, y)
}

// Whether the layer covers the pixel (x, y), on which the source's pixel `index` lies: there is one, or overlay is on. The
// column and the row stand here for the contract alone.
pub fn covers(p: Plan, index: Option<usize>, x: usize, y: usize) -> bool
    requires { index ≡ index_by p x y }
    ensures { result ≡ covers_by p x y }
{
    index.is_some() || p.overlay
}

// The source's pixel at an index; off the source (0, 0, 0, 0).
#[tactic(auto, unfolding(crate::specs::Compose::source_pixel))]
pub fn source_pixel(p: Plan, source: &[u32], index: Option<usize>) -> Rgba
    requires { (Ready p (length source.now)) × (Under (p.width * p.height) index) }
    ensures { result ≡ source_pixel source.now p.channels index }
{
    match index {
        Some(n) => values(rgba_at(source, p.channels, n)),
        None => Rgba::CLEAR,
    }
}

#[tactic(auto, unfolding(crate::specs::Compose::map_coordinate))]
fn map_coordinate(displace: bool, at: usize, v: f32, by: f32) -> f32
    requires { at ≤ slack }
    ensures { result ≡ map_coordinate displace at v by }
{
    if displace {
        (at as f32) + (v - 0.5) * by
    } else {
        v * by
    }
}

// Where a map reads the picture beneath along one of its sides.
pub fn map_axis(displace: bool, at: usize, v: f32, by: f32, side: usize) -> Axis
    requires { (at < side) × (side ≤ slack) }
    ensures { result ≡ axis_of (map_coordinate displace at v by) side }
{
    locate(map_coordinate(displace, at, v, by), side)
}

// A map's result: where it reads, the four neighbours there, and their mixture.
fn mapped(p: Plan, picture: &[u32], channels: usize, s: Rgba, x: usize, y: usize) -> Rgba
    requires { (Picture p.dw p.dh channels (length picture.now)) × (x < p.dw) × (y < p.dh) }
    ensures { result ≡ mapped_by p (values_at picture.now channels) s x y }
{
    let column = map_axis(p.displace, x, s.r, p.params.a, p.dw);
    let row = map_axis(p.displace, y, s.g, p.params.b, p.dh);
    let four = neighbours(picture, channels, p.dw, p.dh, column, row);
    mix(four, column.along, row.along)
}

// Without a map: the operator's, of the source's pixel s and the destination's own pixel d.
fn painted(p: Plan, s: Rgba, d: Rgba) -> Rgba
    ensures { result ≡ painted_by p s d }
{
    paint(p.op, p.params, s, d)
}

#[tactic(auto, unfolding(crate::specs::Plans::result_by))]
fn result(p: Plan, picture: &[u32], channels: usize, s: Rgba, d: Rgba, x: usize, y: usize) -> Rgba
    requires { Beneath p (length picture.now) channels x y }
    ensures { result ≡ result_by p (values_at picture.now channels) s d x y }
{
    if p.map {
        mapped(p, picture, channels, s, x, y)
    } else {
        painted(p, s, d)
    }
}

// A channel: written where its flag is on, else kept with all its bits.
fn written_word(on: bool, v: f32, kept: u32) -> u32
    ensures { result ≡ written_word on v kept }
{
    if on { word(v) } else { kept }
}

#[tactic(auto, unfolding(crate::specs::Compose::written_of))]
pub fn written(m: ChannelMask, v: Rgba, kept: Words) -> Words
    ensures { result ≡ written_of m v kept }
{
    Words {
        r: written_word(m.red, v.r, kept.r),
        g: written_word(m.green, v.g, kept.g),
        b: written_word(m.blue, v.b, kept.b),
        a: written_word(m.alpha, v.a, kept.a),
    }
}

// The pixel (x, y) of the result, from its own words beneath and, for a map, the whole picture beneath. Off the window nothing is computed.
#[tactic(auto, unfolding(crate::specs::Plans::composed_by))]
pub fn composed(
    p: Plan,
    source: &[u32],
    picture: &[u32],
    channels: usize,
    own: Words,
    x: usize,
    y: usize,
) -> Words
    requires { (Ready p (length source.now)) × (Beneath p (length picture.now) channels x y) }
    ensures { result ≡ composed_by p source.now (values_at picture.now channels) own x y }
{
    if !in_window(p, x, y) {
        return own;
    }
    let index = source_index(p.tile, p.width, p.height, p.corner, x, y);
    if covers(p, index, x, y) {
        let s = source_pixel(p, source, index);
        let v = result(p, picture, channels, s, values(own), x, y);
        written(p.mask, v, own)
    } else {
        own
    }
}
