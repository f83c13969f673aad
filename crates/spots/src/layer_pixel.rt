// A layer's pixel, from what it needs of the picture beneath.
ghost use Rattle.std.specs.Prelude.{◌≡◌, false, length};
ghost use Rattle.pictures.specs.Widen.{values_of};
ghost use Rattle.pictures.specs.Bilinear.{channels_of, mix_of};
ghost use Rattle.compose.specs.Compose.{written_of};
ghost use Rattle.compose.specs.Ready.{Ready};
ghost use Rattle.spots.specs.Steps.{On, painted_by};

use compose::Plan;
use compose::pixel::written;
use compose::run::run;
use float_steps::axis::Axis;
use pictures::Words;
use pictures::bilinear::mix;
use pictures::flat::put;
use pictures::widen::{rgba_at, values};

// Pixel j where the layer is no map, on its own words: a run of one pixel, so that the operators' match keeps its one call site. Without a map no picture
// beneath is read, and the one that is lent has nothing to do with the job.
pub fn painted(p: Plan, source: &[u32], own: Words, j: usize) -> Words
    requires { (Ready p (length source.now)) × (On p j) × (p.map ≡ false) }
    ensures { result ≡ painted_by p source.now own j }
{
    let none = [0u32; 4];
    let mut beneath = [0u32; 4];
    put(&mut beneath, 0, own);
    let mut out = [0u32; 4];
    run(p, source, &none, 4, &beneath, j, 1, &mut out);
    rgba_at(&out, 4, 0)
}

// A pixel's four values.
pub fn four(w: Words) -> [f32; 4]
    ensures { result ≡ channels_of (values_of w) }
{
    let v = values(w);
    [v.r, v.g, v.b, v.a]
}

// A map's pixel: the mixture of the four neighbours, written into the channels that are on.
pub fn mixed(p: Plan, x: Axis, y: Axis, neighbours: [[f32; 4]; 4], own: Words) -> Words
    ensures { result ≡ written_of p.mask (mix_of neighbours x.along y.along) own }
{
    written(p.mask, mix(neighbours, x.along, y.along), own)
}
