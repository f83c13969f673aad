// How much each colour counts in a pixel's intensity, `intensity` (composite.rs 902 to 904), and by document 02, A.1, in its gray. The definitions name the same
// three numbers (crates/float_steps/specs/Literals).
pub const RED: f32 = 0.212656;

pub const GREEN: f32 = 0.715158;

pub const BLUE: f32 = 0.072186;
