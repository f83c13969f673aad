// What a pixel of a layer needs of the picture beneath. It follows from the layer and its source, before anything beneath is known.
ghost use Rattle.std.specs.Prelude.{◌≡◌, ◌&&◌, ◌/◌, ◌%◌, ◌<◌, ◌≤◌, length};
ghost use Rattle.places.specs.Bounds.{slack};
ghost use Rattle.compose.specs.Plans.{index_by};
ghost use Rattle.compose.specs.Ready.{Ready};
ghost use Rattle.spots.specs.Spots.{all_on};
ghost use Rattle.spots.specs.Steps.{source_alone, written_needs, needs_by, On};

use crate::Needs;
use compose::Plan;
use compose::pixel::{covers, in_window, map_axis, source_pixel};
use layers::ChannelMask;
use operators::CompositeOp;
use places::source_index;

fn all_on(m: ChannelMask) -> bool
    ensures { result ≡ all_on m }
{
    m.red && m.green && m.blue && m.alpha
}

// Whether the operator's result is of the source alone.
fn source_alone(op: CompositeOp) -> bool
    ensures { result ≡ source_alone op }
{
    matches!(op, CompositeOp::Clear | CompositeOp::Src)
}

// Whether the layer takes all of a pixel that it writes from its source.
fn stops(p: Plan) -> bool
    ensures { result ≡ source_alone p.op && all_on p.mask }
{
    source_alone(p.op) && all_on(p.mask)
}

// Where the layer writes the pixel (x, y), on which the source's pixel `index` lies.
#[tactic(auto, unfolding(crate::specs::Steps::written_needs))]
fn where_written(p: Plan, source: &[u32], index: Option<usize>, x: usize, y: usize) -> Needs
    requires { (Ready p (length source.now))
        × (index ≡ index_by p x y)
        × (x < p.dw)
        × (y < p.dh)
        × (p.dw ≤ slack)
        × (p.dh ≤ slack) }
    ensures { result ≡ written_needs p source.now x y }
{
    if stops(p) {
        Needs::Nothing
    } else if p.map {
        let s = source_pixel(p, source, index);
        let column = map_axis(p.displace, x, s.r, p.params.a, p.dw);
        let row = map_axis(p.displace, y, s.g, p.params.b, p.dh);
        Needs::Around(column, row, all_on(p.mask))
    } else {
        Needs::Own
    }
}

// Pixel j of the layer with this plan.
#[tactic(auto, unfolding(crate::specs::Steps::needs_by))]
pub fn needs_of(p: Plan, source: &[u32], j: usize) -> Needs
    requires { (Ready p (length source.now)) × (On p j) }
    ensures { result ≡ needs_by p source.now (j % p.dw) (j / p.dw) }
{
    let x = j % p.dw;
    let y = j / p.dw;
    if !in_window(p, x, y) {
        return Needs::Kept;
    }
    let index = source_index(p.tile, p.width, p.height, p.corner, x, y);
    if covers(p, index, x, y) {
        where_written(p, source, index, x, y)
    } else {
        Needs::Kept
    }
}
