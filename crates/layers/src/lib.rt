// A layer as one value, the faults of its row and of a whole job's inputs (document 01, "Why a job is turned down", 1 to 8).
// The definitions are in specs/, the limits in specs/Limits.
#![tactic(auto)]

ghost use Rattle.std.specs.Prelude.{◌≡◌};

mod cells; // cells.rt: the rows of the layer table and their numbers
mod decode; // decode.rt: a layer from its row
mod fault; // fault.rt: the faults of a row
mod inputs; // inputs.rt: the first fault of a job's inputs
mod windows; // windows.rt: a layer's window, and the pixels that it holds

use faults::Fault;
pub use inputs::check;
use operators::CompositeOp;
use pictures::Shape;
use places::Gravity;

// Which channels a layer writes.
#[derive(Clone, Copy)]
pub struct ChannelMask {
    pub red: bool,
    pub green: bool,
    pub blue: bool,
    pub alpha: bool,
}

// Where a layer's picture lies in the source samples, and its shape.
#[derive(Clone, Copy)]
pub struct Source {
    pub first: usize,
    pub width: usize,
    pub height: usize,
    pub channels: usize,
}

// A layer's arguments, as words of binary32; those past the count are not read and stand as 0.
#[derive(Clone, Copy)]
pub struct Args {
    pub count: usize,
    pub words: [u32; Layer::ARGS],
}

// The pixels of the destination that a layer may write (document 02, A.3).
#[derive(Clone, Copy)]
pub struct Window {
    pub left: usize,
    pub top: usize,
    pub width: usize,
    pub height: usize,
}

#[derive(Clone, Copy)]
pub struct Layer {
    pub op: CompositeOp,
    pub gravity: Gravity,
    pub right: i64,
    pub down: i64,
    pub tile: bool,
    pub outside_overlay: bool,
    pub mask: ChannelMask,
    pub source: Source,
    pub args: Args,
    pub window: Window,
}

// A job's inputs, as a caller lends them to be read: the destination, its shape and its samples; the count of layers; the layer table; the arguments; the
// source samples.
#[derive(Clone, Copy)]
pub struct JobInputs<'a> {
    pub shape: Shape,
    pub dst: &'a [u32],
    pub count: i64,
    pub table: &'a [i64],
    pub args: &'a [u32],
    pub samples: &'a [u32],
}

// Why a job is refused, and the layer that it concerns.
#[derive(Clone, Copy, Debug, PartialEq, Eq)]
pub struct Refusal {
    pub fault: Fault,
    pub layer: u64,
}

// A fault that concerns no layer, or the layer 0.
impl From<Fault> for Refusal {
    ghost from_gives = { λ fault refusal. refusal ≡ record { fault = fault; layer = 0 } };

    fn from(fault: Fault) -> Refusal {
        Refusal { fault, layer: 0 }
    }
}

impl ChannelMask {
    // The bits of the flags.
    pub const RED: usize = 4;

    pub const GREEN: usize = 8;

    pub const BLUE: usize = 16;

    pub const ALPHA: usize = 32;
}

impl Layer {
    // What the layer table and the arguments have for a layer, a job's limits, and the first two bits of the flags.
    pub const COLUMNS: usize = 14;

    pub const ARGS: usize = 4;

    pub const MOST: i64 = 16;

    pub const OFFSET: i64 = 1000000;

    pub const FLAGS: i64 = 63;

    pub const WINDOW: i64 = Shape::SIDE;

    pub const TILE: usize = 1;

    pub const OVERLAY: usize = 2;
    // The columns of a layer's row, which callers in C fill by these numbers.
    pub const AT_OPERATOR: usize = 0;

    pub const AT_GRAVITY: usize = 1;

    pub const AT_RIGHT: usize = 2;

    pub const AT_DOWN: usize = 3;

    pub const AT_FLAGS: usize = 4;

    pub const AT_FIRST: usize = 5;

    pub const AT_WIDTH: usize = 6;

    pub const AT_HEIGHT: usize = 7;

    pub const AT_CHANNELS: usize = 8;

    pub const AT_COUNT: usize = 9;

    pub const AT_LEFT: usize = 10;

    pub const AT_TOP: usize = 11;

    pub const AT_WINDOW_WIDTH: usize = 12;

    pub const AT_WINDOW_HEIGHT: usize = 13;
}
