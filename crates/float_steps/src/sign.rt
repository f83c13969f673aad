// The absolute value and the square.
ghost use Rattle.std.specs.Prelude.{◌≡◌};
ghost use Rattle.float_steps.specs.Sign.{abs_of, square_of};

// `v.abs()`: the sign bit is cleared.
#[tactic(auto, using(crate::proofs::Absolute::abs_is))]
pub fn abs(v: f32) -> f32
    ensures { result ≡ abs_of v }
{
    v.abs()
}

// `v.powi(2)`: the product.
pub fn square(v: f32) -> f32
    ensures { result ≡ square_of v }
{
    v * v
}
