// Pixels of one phase, composed into a buffer.
ghost use Rattle.std.specs.Prelude.{◌≡◌, [], ◌+◌, ◌*◌, ◌≤◌, length};
ghost use Rattle.pictures.specs.Steps.{filled};
ghost use Rattle.job.specs.Memory.{mem_of};
ghost use Rattle.job.specs.Call.{phase_pixel};
ghost use Rattle.job.specs.Steps.{batch_in, pixels_of, Fillable};

use crate::{Extent, Memory, Part};
use compose::plans::plan;
use compose::run::span;
use compose::source::source_of;
use layers::Layer;
use pictures::flat::widen;
use pictures::shapes::{channels_of, height_of, width_of};

// The pixels of a part, at the front of out, and each whole: phase 0 widens the destination, a later one composites its layer on the picture in work
// (k - 1) mod 2. A pixel does not depend on the checkpoint, which the contract leaves empty.
pub fn fill(extent: Extent<'_>, memory: &Memory<'_>, part: Part, out: &mut [u32])
    requires { (Fillable (batch_in extent) part memory.now.work0.now memory.now.work1.now) × (4 * pixels_of part ≤ length out.old) }
    ensures { let pixel = phase_pixel (batch_in extent.entry).inputs (mem_of memory.now.work0.now memory.now.work1.now []) part.k in
        out.new ≡ filled (λ x. pixel (part.from + x)) (pixels_of part) out.old }
{
    let inputs = extent.inputs;
    let count = part.n.div_ceil(5);
    if part.k == 0 {
        widen(inputs.dst, channels_of(inputs.shape), part.from, count, out);
        return;
    }
    let layer = Layer::at(inputs.table, inputs.args, part.k - 1);
    let p = plan(layer, width_of(inputs.shape), height_of(inputs.shape));
    let source = source_of(inputs.samples, layer);
    let beneath = if (part.k - 1) % 2 == 0 {
        &*memory.work0
    } else {
        &*memory.work1
    };
    span(p, source, beneath, part.from, count, out);
}
