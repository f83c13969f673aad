// A call of a job: its checks, then the writes that it is allowed, then its answer.
ghost use Rattle.std.specs.Prelude.{◌≡◌, ◌*◌, ◌≤◌, Ok};
ghost use Rattle.faults.specs.Faults.{NONE};
ghost use Rattle.faults.specs.Numbers.{number_in};
ghost use Rattle.layers.specs.Inputs.{inputs_in, verdict_of};
ghost use Rattle.job.specs.Memory.{mem_in, job_number_of, SameLists};
ghost use Rattle.job.specs.Steps.{most_position};
ghost use Rattle.job.specs.Job.{memory_fault, call_fault, answer_of};
ghost use Rattle.job.specs.Call.{outcome, accepted_of, call_of};

use crate::size::{end_of, pixel_count};
use crate::writes::writes;
use crate::{Extent, Memory, Progress};
use faults::Fault;
use layers::{JobInputs, Refusal, check};

// The fault of the memory that is lent to a call under the number `job`.
#[tactic(auto, unfolding(crate::specs::Job::memory_fault))]
fn memory_fault(pixels: usize, end: usize, job: u64, memory: &Memory<'_>) -> Result<(), Fault>
    requires { 4 * pixels ≤ most_position }
    ensures { number_in result ≡ memory_fault pixels end job (mem_in memory.now) }
{
    Fault::Work.when(memory.work0.len() != 4 * pixels || memory.work1.len() != 4 * pixels)?;
    Fault::Mark.when(memory.checkpoint.len() != 2 || end < memory.checkpoint[0] as usize)?;
    Fault::JobNumber.when(memory.checkpoint[1] != job)
}

// The first fault of a call: of its inputs, then of its memory, which concerns no layer.
#[tactic(auto, using(faults::proofs::Apart::never_none), unfolding(crate::specs::Job::call_fault))]
fn fault(inputs: JobInputs<'_>, job: u64, memory: &Memory<'_>) -> Result<(), Refusal>
    ensures { verdict_of result ≡ call_fault (inputs_in inputs.entry) job (mem_in memory.now) }
{
    check(inputs)?;
    let pixels = pixel_count(inputs);
    let end = end_of(inputs);
    memory_fault(pixels, end, job, memory)?;
    Ok(())
}

// A call without a fault, under the checkpoint's number.
fn accepted(inputs: JobInputs<'_>, allowance: u64, memory: &mut Memory<'_>) -> Progress
    requires { let mem = mem_in memory.old in
        (call_fault (inputs_in inputs) (job_number_of mem) mem).number ≡ NONE }
    ensures { (outcome (mem_in memory.new) (answer_of (Ok result)) ≡ accepted_of (inputs_in inputs.entry) allowance (mem_in memory.old))
        × SameLists memory.old memory.new }
{
    let end = end_of(inputs);
    let start = memory.checkpoint[0] as usize;
    let left = 5 * (end - start);
    let due = (allowance as usize).min(left);
    let mut uses = 0u64;
    let extent = Extent { inputs, start, due };
    writes(extent, memory, &mut uses);
    Progress {
        stores: uses,
        finished: memory.checkpoint[0] == end as u64,
    }
}

// A call of a job under the number `job`, allowed so many writes. Its whole outcome, for every input and whatever the lists hold, is `call_of`.
#[tactic(auto, using(faults::proofs::Apart::never_none), unfolding(crate::specs::Call::call_of))]
pub fn run(
    inputs: JobInputs<'_>,
    job: u64,
    allowance: u64,
    memory: &mut Memory<'_>,
) -> Result<Progress, Refusal>
    ensures outcome { outcome (mem_in memory.new) (answer_of result) ≡ call_of (inputs_in inputs.entry) job allowance (mem_in memory.old) }
    ensures same_lists { SameLists memory.old memory.new }
{
    fault(inputs, job, memory)?;
    Ok(accepted(inputs, allowance, memory))
}
