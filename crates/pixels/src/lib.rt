// What each operator makes of a pixel of the source and one of the destination (composite.rs, `pixel` and what it calls): a function an operator, or one for
// several. The contracts cite specs/; crates/paint has the match that chooses among them.
#![tactic(auto)]

ghost use Rattle.std.specs.Prelude.{◌≡◌};

pub mod colours; // colours.rt: the operators on hue, intensity and single channels
pub mod conventions; // conventions.rt: how a mathematical operator combines its blend with the alphas, for one channel
pub mod mathematical; // mathematical.rt: the mathematical operators
pub mod porter_duff; // porter_duff.rt: Porter and Duff's operators, Blend and Dissolve

use pictures::Rgba;

// An operator's arguments, with their defaults in place: `a` and `b` in composite.rs's words, or A, B, C and D of Mathematics. They and the two pixels, s and
// d, are three parameters, as `pixel` of composite.rs has them: an operator asks for those that it needs.
#[derive(Clone, Copy)]
pub struct Params {
    pub a: f32,
    pub b: f32,
    pub c: f32,
    pub d: f32,
}

// The pixel whose colour channels are f of those of s and d, with the alpha a.
fn on_colours<F: Fn(f32, f32) -> f32>(f: F, s: Rgba, d: Rgba, a: f32) -> Rgba
    requires { F.IsAlwaysCallable f }
    ensures { (F.post f s.r d.r result.r) × (F.post f s.g d.g result.g) × (F.post f s.b d.b result.b) × (result.a ≡ a) }
{
    Rgba {
        r: f(s.r, d.r),
        g: f(s.g, d.g),
        b: f(s.b, d.b),
        a,
    }
}
