// The one function that writes.
ghost use Rattle.std.specs.Prelude.{◌≡◌, ◌+◌};
ghost use Rattle.job.specs.Memory.{mem_in, put, SameLists};
ghost use Rattle.job.specs.Steps.{batch_in};
ghost use Rattle.job.specs.Uses.{NextUse};

use crate::{Extent, Memory, Write};

// It changes the one number that the write names. The write has to be the next one of the call that the other arguments describe: its inputs, the position
// that it found and the writes that it makes, and `uses`, those that it has made. The extent stands here for the contract alone; `uses` is begun at 0 by
// the call, raised here and nowhere else, and is what the call answers; it stands beside the memory, since it is nothing that the host has lent.
pub fn store(extent: Extent<'_>, memory: &mut Memory<'_>, uses: &mut u64, write: Write)
    requires { NextUse (batch_in extent) uses.old (mem_in memory.old) write }
    ensures { (mem_in memory.new ≡ put write (mem_in memory.old)) × (uses.new ≡ uses.old + 1) × SameLists memory.old memory.new }
{
    match write {
        Write::Work0 { at, word } => memory.work0[at] = word,
        Write::Work1 { at, word } => memory.work1[at] = word,
        Write::Checkpoint { position } => memory.checkpoint[0] = position,
    }
    *uses += 1;
}
