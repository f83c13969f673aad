// Numbers as a caller gives them, and which of them are a picture's sides and channels. The contracts cite specs/Shapes.
ghost use Rattle.std.specs.Prelude.{◌≡◌, false};
ghost use Rattle.pictures.specs.Shapes.{nat_of, outside_z, bad_channels, bad_shape, sample_count};

use crate::Shape;

impl Shape {
    // The largest side.
    pub const SIDE: i64 = 2048;
}

// A number that is not negative as an unsigned one; a negative one as 0.
#[tactic(auto, unfolding(crate::specs::Shapes::nat_of))]
pub fn natural(z: i64) -> usize
    ensures { result ≡ nat_of z }
{
    if z < 0 { 0 } else { z as usize }
}

// Whether a number is not from lo to hi.
#[tactic(auto, unfolding(crate::specs::Shapes::outside_z))]
pub fn outside(z: i64, lo: i64, hi: i64) -> bool
    ensures { result ≡ outside_z lo hi z }
{
    z < lo || hi < z
}

// Whether a number is none of 1, 3 and 4.
#[tactic(auto, unfolding(crate::specs::Shapes::bad_channels))]
pub fn bad_channels(z: i64) -> bool
    ensures { result ≡ bad_channels z }
{
    z != 1 && z != 3 && z != 4
}

// Whether a side or the channels of a picture are out of their range.
#[tactic(auto, unfolding(crate::specs::Shapes::bad_shape))]
pub fn bad_shape(shape: Shape) -> bool
    ensures { result ≡ bad_shape shape }
{
    outside(shape.width, 0, Shape::SIDE)
        || outside(shape.height, 0, Shape::SIDE)
        || bad_channels(shape.channels)
}

// A shape's numbers as unsigned ones.
pub fn width_of(shape: Shape) -> usize
    ensures { result ≡ nat_of shape.width }
{
    natural(shape.width)
}

pub fn height_of(shape: Shape) -> usize
    ensures { result ≡ nat_of shape.height }
{
    natural(shape.height)
}

pub fn channels_of(shape: Shape) -> usize
    ensures { result ≡ nat_of shape.channels }
{
    natural(shape.channels)
}

// The samples of a picture whose shape is in its range.
pub fn sample_count(shape: Shape) -> usize
    requires { bad_shape shape ≡ false }
    ensures { result ≡ sample_count shape }
{
    let w = width_of(shape);
    let h = height_of(shape);
    let c = channels_of(shape);
    w * h * c
}
