// The single composition: one layer on a destination of one, three or four channels, into a lent output of four.
ghost use Rattle.std.specs.Prelude.{◌≡◌, ◌+◌, ◌*◌, pos, length};
ghost use Rattle.faults.specs.Numbers.{number_in};
ghost use Rattle.layers.specs.GoodLayers.{GoodLayer, Picture};
ghost use Rattle.layers.specs.Inputs.{inputs_of};
ghost use Rattle.pictures.specs.Widen.{rgba_at};
ghost use Rattle.pictures.specs.FlatWords.{flat};
ghost use Rattle.compose.specs.Compose.{composed_of};
ghost use Rattle.compose.specs.Plans.{pixel_on};
ghost use Rattle.compose.specs.Ready.{Ready, Span};
ghost use Rattle.compose.specs.Single.{composed, compose_of};

use crate::Plan;
use crate::plans::plan;
use crate::run::{SPAN, run};
use crate::source::source_of;
use faults::Fault;
use layers::{JobInputs, Layer, check};
use pictures::Shape;
use pictures::flat::widen;
use pictures::shapes::{channels_of, height_of, width_of};

// The whole picture, span by span: their own pixels are widened into a buffer first.
fn spans(p: Plan, source: &[u32], dst: &[u32], channels: usize, total: usize, out: &mut [u32])
    requires { (Ready p (length source.now))
        × (Span p (length dst.now) channels 0 total)
        × (length out.old ≡ 4 * total) }
    ensures { out.new ≡ flat (pixel_on p source.now (rgba_at dst.now channels)) 0 total }
{
    let mut own = [0u32; 4 * SPAN];
    for j in (0..total).step_by(SPAN) {
        let count = SPAN.min(total - j);
        let at = 4 * j;
        widen(dst, channels, j, count, &mut own);
        run(p, source, dst, channels, &own, j, count, &mut out[at..]);
    }
}

// A layer on a destination of dw by dh pixels.
fn whole(
    l: Layer,
    dw: usize,
    dh: usize,
    channels: usize,
    dst: &[u32],
    samples: &[u32],
    out: &mut [u32],
)
    requires { (GoodLayer (length samples.now) l)
        × (Picture dw dh channels (length dst.now))
        × (length out.old ≡ 4 * (dw * dh)) }
    ensures { out.new ≡ composed_of samples.now l dw dh channels dst.now }
{
    let p = plan(l, dw, dh);
    let source = source_of(samples, l);
    spans(p, source, dst, channels, dw * dh, out);
}

// One layer on one destination: the whole picture in out; or the first fault, with out as it was.
pub fn compose(
    shape: Shape,
    dst: &[u32],
    table: &[i64],
    args: &[u32],
    samples: &[u32],
    out: &mut [u32],
) -> Result<(), Fault>
    ensures { composed (number_in result) out.new ≡ compose_of (inputs_of shape dst.now (pos 1) table.now args.now samples.now) out.old }
{
    let inputs = JobInputs {
        shape,
        dst,
        count: 1,
        table,
        args,
        samples,
    };
    if let Err(refusal) = check(inputs) {
        return Err(refusal.fault);
    }
    let dw = width_of(shape);
    let dh = height_of(shape);
    let depth = channels_of(shape);
    Fault::Work.when(out.len() != 4 * (dw * dh))?;
    whole(Layer::at(table, args, 0), dw, dh, depth, dst, samples, out);
    Ok(())
}
