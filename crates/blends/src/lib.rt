// The scalar arithmetic of composite.rs's operators: the blend functions that branch, and the two colour conversions.
// Its contracts cite specs/Blends.antt and specs/Hsl.antt.
#![tactic(auto)]

pub mod blend; // blend.rt: hard_light, soft_light, color_dodge, color_burn, divide and the arms that rest on them
pub mod conversions; // conversions.rt: rgb_to_hsl and hsl_to_rgb

// Hue, saturation and lightness, as one value between the two conversions.
#[derive(Clone, Copy)]
pub struct Hsl {
    pub h: f32,
    pub s: f32,
    pub l: f32,
}

// The three colour channels of a pixel.
#[derive(Clone, Copy)]
pub struct Rgb {
    pub r: f32,
    pub g: f32,
    pub b: f32,
}
