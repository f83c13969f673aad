// `to_rgba` of one pixel, and the values of its words.
ghost use Rattle.std.specs.Prelude.{◌≡◌, ◌+◌, ◌*◌, ◌≤◌, ◌<◌, length};
ghost use Rattle.pictures.specs.Widen.{four_at, three_at, one_at, rgba_at, values_of};

use crate::{Rgba, Words};
use float_steps::words::value;

// The word of 1.0.
const OPAQUE: u32 = 0x3f80_0000;

// The pixel whose words begin at a place of the picture, by its channels.
fn four_at(picture: &[u32], at: usize) -> Words
    requires { at + 4 ≤ length picture.now }
    ensures { result ≡ four_at picture.now at }
{
    Words {
        r: picture[at],
        g: picture[at + 1],
        b: picture[at + 2],
        a: picture[at + 3],
    }
}

fn three_at(picture: &[u32], at: usize) -> Words
    requires { at + 3 ≤ length picture.now }
    ensures { result ≡ three_at picture.now at }
{
    Words {
        r: picture[at],
        g: picture[at + 1],
        b: picture[at + 2],
        a: OPAQUE,
    }
}

fn one_at(picture: &[u32], at: usize) -> Words
    requires { at < length picture.now }
    ensures { result ≡ one_at picture.now at }
{
    let gray = picture[at];
    Words {
        r: gray,
        g: gray,
        b: gray,
        a: OPAQUE,
    }
}

// Pixel j of a picture of four, three or one channels.
#[tactic(auto, unfolding(crate::specs::Widen::rgba_at))]
pub fn rgba_at(picture: &[u32], channels: usize, j: usize) -> Words
    requires { (1 ≤ channels) × (channels ≤ 4) × (channels * j + channels ≤ length picture.now) }
    ensures { result ≡ rgba_at picture.now channels j }
{
    let at = channels * j;
    if channels == 4 {
        four_at(picture, at)
    } else if channels == 3 {
        three_at(picture, at)
    } else {
        one_at(picture, at)
    }
}

pub fn values(w: Words) -> Rgba
    ensures { result ≡ values_of w }
{
    Rgba {
        r: value(w.r),
        g: value(w.g),
        b: value(w.b),
        a: value(w.a),
    }
}
