// A job, stopped and taken up (document 01, "Stores and the mark"): layers composited in turn, written pixel by pixel into lent memory with a
// checkpoint, so that a call cut at any write leaves what a later call goes on from. The contracts cite specs/Job.antt, Call and Memory, and
// beneath the call Uses and Steps.
#![tactic(auto)]

pub mod call; // call.rt: a call of a job
mod size; // size.rt: how large a job is
mod writes; // writes.rt: the writes of an accepted call, span by span
mod fill; // fill.rt: pixels of one phase, composed into a buffer
mod pixel; // pixel.rt: the writes of a pixel, and of a span, from the buffer
mod store; // store.rt: the one function that writes

use layers::JobInputs;

// The memory that a job is lent: two work buffers and a checkpoint.
#[derive(Drop)]
pub struct Memory<'a> {
    pub work0: &'a mut [u32],
    pub work1: &'a mut [u32],
    pub checkpoint: &'a mut [u64],
}

// One write (document 01: a store): a word of work buffer 0 or 1, or the job's position. None changes the checkpoint's other number, the job's.
#[derive(Clone, Copy)]
enum Write {
    Work0 { at: usize, word: u32 },
    Work1 { at: usize, word: u32 },
    Checkpoint { position: u64 },
}

// The writes of an accepted call: its inputs, the position that it found, and how many writes it makes.
#[derive(Clone, Copy)]
struct Extent<'a> {
    pub inputs: JobInputs<'a>,
    pub start: usize,
    pub due: usize,
}

// A part of its writes: the first n of picture k's from pixel `from` on, so that its last pixel may lack some.
#[derive(Clone, Copy)]
struct Part {
    pub k: usize,
    pub from: usize,
    pub n: usize,
}

// What a call without a fault answers: the writes that it made, and whether the job is finished.
#[derive(Clone, Copy, Debug, PartialEq, Eq)]
pub struct Progress {
    pub stores: u64,
    pub finished: bool,
}
