// The writes of a pixel, and of the pixels of a span, from the buffer that they were composed into.
ghost use Rattle.std.specs.Prelude.{◌≡◌, ◌+◌, ◌*◌, ◌<◌, ◌≤◌, length};
ghost use Rattle.pictures.specs.Widen.{rgba_at};
ghost use Rattle.job.specs.Memory.{mem_in, write_of, SameLists};
ghost use Rattle.job.specs.Steps.{batch_in, most_position, NextPart, Buffered, Ran};

use crate::store::store;
use crate::{Extent, Memory, Part, Write};

// Write c of the five of pixel j of picture k, whose words are pixel x of the buffer: red, green, blue, alpha, then the position, raised by one.
fn write_of(k: usize, j: usize, buf: &[u32], x: usize, c: usize, position: u64) -> Write
    requires { (c < 5) × (c < 4 → 4 * x + c < length buf.now) × (4 * j < most_position) × (position < most_position) }
    ensures { result ≡ write_of k j (rgba_at buf.now 4 x) (position + 1) c }
{
    if c == 4 {
        return Write::Checkpoint {
            position: position + 1,
        };
    }
    let at = 4 * j + c;
    let word = buf[4 * x + c];
    if k % 2 == 0 {
        Write::Work0 { at, word }
    } else {
        Write::Work1 { at, word }
    }
}

// A part of one pixel, whose words are pixel x of the buffer. The position is read from the checkpoint before each write, so also after alpha's: that
// keeps the compiled writes in their order.
fn pixel(
    extent: Extent<'_>,
    memory: &mut Memory<'_>,
    uses: &mut u64,
    part: Part,
    x: usize,
    buf: &[u32],
)
    requires { let batch = batch_in extent in let mem = mem_in memory.old in
        (NextPart batch uses.old part mem) × (Buffered batch part mem x buf.now) × (part.n ≤ 5) }
    ensures { (Ran (batch_in extent.entry) uses.old part.n uses.new (mem_in memory.old) (mem_in memory.new)) × SameLists memory.old memory.new }
{
    for c in 0..part.n {
        let write = write_of(part.k, part.from, buf, x, c, memory.checkpoint[0]);
        store(extent, memory, uses, write);
    }
}

// A part, out of the buffer that begins with its pixels: whole pixels, then the first writes of one more.
pub fn write_out(
    extent: Extent<'_>,
    memory: &mut Memory<'_>,
    uses: &mut u64,
    part: Part,
    buf: &[u32],
)
    requires { let batch = batch_in extent in let mem = mem_in memory.old in
        (NextPart batch uses.old part mem) × (Buffered batch part mem 0 buf.now) }
    ensures { (Ran (batch_in extent.entry) uses.old part.n uses.new (mem_in memory.old) (mem_in memory.new)) × SameLists memory.old memory.new }
{
    let full = part.n / 5;
    for x in 0..full {
        let whole = Part {
            k: part.k,
            from: part.from + x,
            n: 5,
        };
        pixel(extent, memory, uses, whole, x, buf);
    }
    let last = Part {
        k: part.k,
        from: part.from + full,
        n: part.n % 5,
    };
    pixel(extent, memory, uses, last, full, buf);
}
