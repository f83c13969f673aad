// The lines of jobs: calls one after the other on the same work buffers and checkpoint.
#![tactic(auto)]

ghost use Rattle.std.specs.Prelude.{◌≡◌, get_or};
ghost use Rattle.vector_rooms.specs.Rooms.{placed, inputs_in};
ghost use Rattle.job.specs.Memory.{mem_of};
ghost use Rattle.vector_jobs.specs.Jobs.{played, jobbed, call_at, calls_at, called_at, played_at, job_at};

use vector_lines::{NOWHERE, Number, expect};
use vector_rooms::{Asked, Lists, Memory, Room, shape_of};

// J width height channels DST layers TABLE ARGS SAMPLES WORK0 WORK1 MARK CALLS: number layer stores finished mark for each call, WORK0 WORK1 MARK. CALLS has
// each call's job number and allowance, one after the other.
pub fn job(line: &[u8], lists: &mut Lists, memory: &mut Memory) -> usize
    ensures { jobbed lists.new (placed result memory.new) ≡ job_at line.now lists.old memory.old }
{
    let shape = shape_of(line);
    let after_dst = lists.dst.read(line, shape.next);
    let layers = i64::read(line, after_dst);
    let after_lists = lists.read_layers(line, layers.next);
    played(
        line,
        after_lists,
        lists.asked(shape.value, layers.value),
        memory,
    )
}

// Reads the memory and what each call is given, makes the calls, and holds the memory that they leave against what the line says.
fn played(line: &[u8], at: usize, asked: Asked<'_>, memory: &mut Memory) -> usize
    ensures { placed result memory.new ≡ played_at line.now (inputs_in asked.entry) (placed at memory.old) }
{
    let after_memory = memory.read(line, at);
    let mut calls: Room<u64, 32> = Room::new(0);
    let after_numbers = calls.read(line, after_memory);
    let due = *memory;
    let after_calls = called(line, after_numbers, asked, calls.as_slice(), memory);
    memory.left(line, after_calls, due)
}

// The calls, each with its job number and allowance, on the parts of the memory that are lent.
fn called(line: &[u8], at: usize, asked: Asked<'_>, calls: &[u64], memory: &mut Memory) -> usize
    ensures { placed result memory.new ≡ called_at line.now (inputs_in asked.entry) calls.now (placed at memory.old) }
{
    if !memory.fits() {
        return NOWHERE;
    }
    let Memory {
        work0,
        work1,
        checkpoint,
    } = memory;
    calls_on(
        line,
        at,
        asked,
        calls,
        &mut work0.items[..work0.count],
        &mut work1.items[..work1.count],
        &mut checkpoint.items[..checkpoint.count],
    )
}

fn calls_on(
    line: &[u8],
    from: usize,
    asked: Asked<'_>,
    calls: &[u64],
    work0: &mut [u32],
    work1: &mut [u32],
    checkpoint: &mut [u64],
) -> usize
    ensures { played result (mem_of work0.new work1.new checkpoint.new)
        ≡ calls_at line.now (inputs_in asked.entry) calls.now (played from (mem_of work0.old work1.old checkpoint.old)) }
{
    let mut at = from;
    let mut left = calls;
    while let [job, allowance, rest @ ..] = left {
        at = call(line, at, asked, *job, *allowance, work0, work1, checkpoint);
        left = rest;
    }
    if left.is_empty() { at } else { NOWHERE }
}

// One call, and the place after its answer.
fn call(
    line: &[u8],
    at: usize,
    asked: Asked<'_>,
    job: u64,
    allowance: u64,
    work0: &mut [u32],
    work1: &mut [u32],
    checkpoint: &mut [u64],
) -> usize
    ensures { played result (mem_of work0.new work1.new checkpoint.new)
        ≡ call_at line.now (inputs_in asked.entry) job allowance (played at (mem_of work0.old work1.old checkpoint.old)) }
{
    let mut layer: u64 = 0;
    let mut stores: u64 = 0;
    let mut finished: u64 = 0;
    let answer = tray::tray_job(
        asked.shape.width,
        asked.shape.height,
        asked.shape.channels,
        asked.dst,
        asked.layers,
        asked.table,
        asked.args,
        asked.samples,
        job,
        allowance,
        work0,
        work1,
        checkpoint,
        &mut layer,
        &mut stores,
        &mut finished,
    );
    let after_answer = expect(line, expect(line, at, answer), layer);
    let after_count = expect(line, expect(line, after_answer, stores), finished);
    expect(line, after_count, position(checkpoint))
}

// The checkpoint as a line shows it: the first number of its list, 0 where there is none.
fn position(checkpoint: &[u64]) -> u64
    ensures { result ≡ get_or checkpoint.now 0 0 }
{
    match checkpoint {
        [first, ..] => *first,
        [] => 0,
    }
}
