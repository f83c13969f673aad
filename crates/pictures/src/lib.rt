// Pictures as deep.rs has them, on lent words: one pixel widened to RGBA, runs of them, and the picture read
// between its pixels.
// A picture is a list of words (binary32 patterns), row by row, `channels` of them a pixel. The definitions are in specs/.
#![tactic(auto)]

pub mod bilinear; // bilinear.rt: the four neighbours of a place between pixels, and their mixture
pub mod flat; // flat.rt: pixels written into a list of words
pub mod shapes; // shapes.rt: a picture's sides and channels as a caller gives them, and which are accepted
pub mod weights; // weights.rt: how much each colour counts in a pixel's intensity and in its gray
pub mod widen; // widen.rt: `to_rgba` of one pixel

// The four words of a pixel.
#[derive(Clone, Copy)]
pub struct Words {
    pub r: u32,
    pub g: u32,
    pub b: u32,
    pub a: u32,
}

// The four values of a pixel, straight alpha.
#[derive(Clone, Copy)]
pub struct Rgba {
    pub r: f32,
    pub g: f32,
    pub b: f32,
    pub a: f32,
}

impl Rgba {
    // Transparent black.
    pub const CLEAR: Rgba = Rgba {
        r: 0.0,
        g: 0.0,
        b: 0.0,
        a: 0.0,
    };
}

// A picture's sides in pixels and its channels, as a caller gives them: any numbers.
#[derive(Clone, Copy)]
pub struct Shape {
    pub width: i64,
    pub height: i64,
    pub channels: i64,
}
