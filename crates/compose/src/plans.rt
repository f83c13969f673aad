// A layer's plan: what it asks of each pixel, worked out once.
ghost use Rattle.std.specs.Prelude.{◌≡◌, ◌≤◌};
ghost use Rattle.operators.specs.Operators.{same_op};
ghost use Rattle.operators.specs.declared.CompositeOp.TheVariants as O;
ghost use Rattle.places.specs.Bounds.{Measured};
ghost use Rattle.compose.specs.Compose.{reads_through};
ghost use Rattle.compose.specs.Ready.{Planned};

use crate::Plan;
use crate::arguments::params;
use layers::Layer;
use operators::CompositeOp;
use places::placement;

// Whether the operator reads the destination through the source: one of the two maps that are carried.
pub fn reads_through(op: CompositeOp) -> bool
    ensures { result ≡ reads_through op }
{
    matches!(op, CompositeOp::Displace | CompositeOp::Distort)
}

// Whether it is Displace, which moves a pixel by what the source says, and not Distort, which moves it to there.
fn displaces(op: CompositeOp) -> bool
    ensures { result ≡ same_op op O.Displace }
{
    matches!(op, CompositeOp::Displace)
}

// The layer's plan on a destination of dw by dh pixels.
pub fn plan(l: Layer, dw: usize, dh: usize) -> Plan
    requires { (Measured dw dh l.source.width l.source.height l.right l.down)
        × (1 ≤ l.source.channels)
        × (l.source.channels ≤ 4) }
    ensures { Planned l dw dh result }
{
    let (w, h) = (l.source.width, l.source.height);
    Plan {
        op: l.op,
        params: params(l.op, l.args),
        map: reads_through(l.op),
        displace: displaces(l.op),
        corner: placement(l.gravity, dw, dh, w, h, l.right, l.down),
        tile: l.tile,
        overlay: l.outside_overlay,
        mask: l.mask,
        width: w,
        height: h,
        channels: l.source.channels,
        dw,
        dh,
        window: l.window,
    }
}
