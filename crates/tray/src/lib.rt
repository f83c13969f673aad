// What a host calls: the names, the cards, the single composition, narrowing and the job. Each function hands its arguments on and has the contract of what
// it calls. A picture is lent as its words, the binary32 patterns, so that a host passes its float buffer as it is. The crate tray_c exports them to C, whose
// interface they have: a fault is answered by its number, and what a call answers besides is written where the host asks for it.
#![tactic(auto)]

ghost use Rattle.std.specs.Prelude.{◌≡◌, pos};
ghost use Rattle.names.specs.Names.{from_name};
ghost use Rattle.pictures.specs.Shapes.{shape_of};
ghost use Rattle.layers.specs.Inputs.{inputs_of};
ghost use Rattle.cards.specs.Answers.{answer, outcome, read_of};
ghost use Rattle.compose.specs.Single.{composed, compose_of};
ghost use Rattle.narrowing.specs.Narrow.{narrowed, narrow_of, narrow_bytes_of};
ghost use Rattle.job.specs.Memory.{mem_of};
ghost use Rattle.job.specs.Call.{call_of};
ghost use Rattle.tray.specs.Answers.{named, name_of, job_outcome, host_outcome};

use faults::Fault;
use layers::JobInputs;
use pictures::Shape;

// The operator that a name spells: 0 with its number in `operator`; or 3, with `operator` as it was.
pub fn tray_from_name(name: &[u8], operator: &mut u64) -> u64
    ensures { named result operator.new ≡ name_of (from_name name.now) operator.old }
{
    match names::from_name(name) {
        Some(number) => {
            *operator = number;
            0
        }
        None => Fault::Operator.number(),
    }
}

// The card that a text is, read into the layer table and the arguments, lent for the most layers: 0, and both filled; or 12, with the first line that is out of
// form or one too many (0 for a list of another length), and both as they were. The line, the tray's width, height and channels and the count of layers are
// written to the last five.
pub fn tray_read_card(
    text: &[u8],
    rows: &mut [i64],
    words: &mut [u32],
    line: &mut u64,
    width: &mut i64,
    height: &mut i64,
    channels: &mut i64,
    layers: &mut i64,
) -> u64
    ensures { outcome (answer result line.new width.new height.new channels.new layers.new) rows.new words.new
        ≡ read_of text.now rows.old words.old }
{
    match cards::read(text, rows, words) {
        Ok(header) => {
            *line = 0;
            *width = header.width;
            *height = header.height;
            *channels = header.channels;
            *layers = header.layers;
            0
        }
        Err(bad) => {
            *line = bad.line;
            *width = 0;
            *height = 0;
            *channels = 0;
            *layers = 0;
            Fault::Card.number()
        }
    }
}

// One layer on one destination: 0 and the whole picture in `out`; or the number of the first fault, with `out` as it was.
pub fn tray_compose(
    width: i64,
    height: i64,
    channels: i64,
    dst: &[u32],
    table: &[i64],
    args: &[u32],
    samples: &[u32],
    out: &mut [u32],
) -> u64
    ensures { composed result out.new ≡ compose_of (inputs_of (shape_of width height channels) dst.now (pos 1) table.now args.now samples.now) out.old }
{
    let shape = Shape {
        width,
        height,
        channels,
    };
    faults::number(compose::single::compose(shape, dst, table, args, samples, out))
}

// A picture of four channels narrowed to one, three or four: 0 and the whole output; or 11, with the output as it was.
pub fn tray_narrow(wanted: i64, input: &[u32], output: &mut [u32]) -> u64
    ensures { narrowed result output.new ≡ narrow_of wanted input.now output.old }
{
    faults::number(narrowing::narrow(wanted, input, output))
}

// The same as bytes.
pub fn tray_narrow_bytes(wanted: i64, input: &[u32], output: &mut [u8]) -> u64
    ensures { narrowed result output.new ≡ narrow_bytes_of wanted input.now output.old }
{
    faults::number(narrowing::narrow_bytes(wanted, input, output))
}

// A call of a job under its number, allowed so many stores: the number of the first fault, or 0; its layer, the stores made and whether the job is
// finished (1 or 0) are written to the last three. `work0`, `work1` and `checkpoint`, the position and the job's number, hold the job between calls. A
// refused call leaves them as they were, and every call the job's number.
pub fn tray_job(
    width: i64,
    height: i64,
    channels: i64,
    dst: &[u32],
    layers: i64,
    table: &[i64],
    args: &[u32],
    samples: &[u32],
    job: u64,
    allowance: u64,
    work0: &mut [u32],
    work1: &mut [u32],
    checkpoint: &mut [u64],
    layer: &mut u64,
    stores: &mut u64,
    finished: &mut u64,
) -> u64
    ensures { let inputs = inputs_of (shape_of width height channels) dst.now layers table.now args.now samples.now in
        host_outcome (mem_of work0.new work1.new checkpoint.new) result layer.new stores.new finished.new
        ≡ job_outcome (call_of inputs job allowance (mem_of work0.old work1.old checkpoint.old)) }
{
    let shape = Shape {
        width,
        height,
        channels,
    };
    let inputs = JobInputs {
        shape,
        dst,
        count: layers,
        table,
        args,
        samples,
    };
    let mut memory = job::Memory {
        work0,
        work1,
        checkpoint,
    };
    match job::call::run(inputs, job, allowance, &mut memory) {
        Ok(progress) => {
            *layer = 0;
            *stores = progress.stores;
            *finished = u64::from(progress.finished);
            0
        }
        Err(refusal) => {
            *layer = refusal.layer;
            *stores = 0;
            *finished = 0;
            refusal.fault.number()
        }
    }
}
