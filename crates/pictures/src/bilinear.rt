// Two of the three parts of `bilinear_into`: the four neighbours, and their mixture. Where, which the two axes say, is `locate` of the crate float_steps.
ghost use Rattle.std.specs.Prelude.{◌≡◌, ◌+◌, ◌*◌, ◌≤◌, ◌<◌, length};
ghost use Rattle.pictures.specs.Bilinear.{channels_of, neighbours_of, mixed_of, mix_of};
ghost use Rattle.pictures.specs.Steps.{values_at, InPicture};

use crate::Rgba;
use crate::widen::{rgba_at, values};
use float_steps::axis::Axis;

// The four values of the pixel in column x of row y.
fn channels_at(picture: &[u32], channels: usize, w: usize, h: usize, x: usize, y: usize) -> [f32; 4]
    requires { (1 ≤ channels) × (channels ≤ 4) × (x < w) × (y < h) × (length picture.now ≡ w * h * channels) }
    ensures { result ≡ channels_of (values_at picture.now channels (y * w + x)) }
{
    let p = values(rgba_at(picture, channels, y * w + x));
    [p.r, p.g, p.b, p.a]
}

// The four neighbours, row by row.
pub fn neighbours(
    picture: &[u32],
    channels: usize,
    w: usize,
    h: usize,
    x: Axis,
    y: Axis,
) -> [[f32; 4]; 4]
    requires { InPicture picture.now channels w h x y }
    ensures { result ≡ neighbours_of (values_at picture.now channels) w x y }
{
    let x0 = x.at;
    let x1 = x.next;
    let y0 = y.at;
    let y1 = y.next;
    [
        channels_at(picture, channels, w, h, x0, y0),
        channels_at(picture, channels, w, h, x1, y0),
        channels_at(picture, channels, w, h, x0, y1),
        channels_at(picture, channels, w, h, x1, y1),
    ]
}

// Channel c of the mixture.
fn mixed(p: [[f32; 4]; 4], c: usize, fx: f32, fy: f32) -> f32
    requires { c < 4 }
    ensures { result ≡ mixed_of p c fx fy }
{
    p[0][c] * (1.0 - fx) * (1.0 - fy)
        + p[1][c] * fx * (1.0 - fy)
        + p[2][c] * (1.0 - fx) * fy
        + p[3][c] * fx * fy
}

pub fn mix(p: [[f32; 4]; 4], fx: f32, fy: f32) -> Rgba
    ensures { result ≡ mix_of p fx fy }
{
    Rgba {
        r: mixed(p, 0, fx, fy),
        g: mixed(p, 1, fx, fy),
        b: mixed(p, 2, fx, fy),
        a: mixed(p, 3, fx, fy),
    }
}
