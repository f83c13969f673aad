// The writes of an accepted call, span by span: pixels of one phase are composed into a private buffer and written from it.
ghost use Rattle.std.specs.Prelude.{◌≡◌};
ghost use Rattle.job.specs.Memory.{mem_in, SameLists};
ghost use Rattle.job.specs.Steps.{batch_in, Ran};
ghost use Rattle.job.specs.Uses.{Midway};

use crate::fill::fill;
use crate::pixel::write_out;
use crate::size::pixel_count;
use crate::{Extent, Memory, Part};
use compose::run::SPAN;

// The writes of a span's pixels, five each.
const WRITES: usize = 5 * SPAN;

// The writes that are due, from the position `start` on.
pub fn writes(extent: Extent<'_>, memory: &mut Memory<'_>, uses: &mut u64)
    requires { (uses.old ≡ 0) × (Midway (batch_in extent) 0 (mem_in memory.old)) }
    ensures { let batch = batch_in extent.entry in
        (Ran batch 0 batch.due uses.new (mem_in memory.old) (mem_in memory.new)) × SameLists memory.old memory.new }
{
    let pixels = pixel_count(extent.inputs);
    let mut buf = [0u32; 4 * SPAN];
    // The counter says how far the call is, and a span that a picture's end cuts is shorter than others: no range counts this.
    while (*uses as usize) < extent.due {
        let done = *uses as usize;
        let at = extent.start + done / 5;
        let from = at % pixels;
        let in_picture = 5 * (pixels - from);
        let n = in_picture.min(extent.due - done).min(WRITES);
        let k = at / pixels;
        let part = Part { k, from, n };
        fill(extent, memory, part, &mut buf);
        write_out(extent, memory, uses, part, &buf);
    }
}
