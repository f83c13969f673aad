// Composition: one layer on one picture, as `compose_float` of composite.rs has it. The contracts cite specs/Compose, Arguments and Single, and, of what
// the code works out once a layer, specs/Plans and Ready.
#![tactic(auto)]

pub mod arguments; // arguments.rt: an operator's arguments with their defaults
pub mod pixel; // pixel.rt: one pixel of the result
pub mod plans; // plans.rt: a layer's plan
pub mod run; // run.rt: runs of pixels
pub mod single; // single.rt: the single composition
pub mod source; // source.rt: a layer's part of the source samples

use layers::{ChannelMask, Window};
use operators::CompositeOp;
use pixels::Params;
use places::Corner;

// What a layer asks of each pixel, worked out once: its operator with its arguments, where its source lies, and what it may write.
#[derive(Clone, Copy)]
pub struct Plan {
    pub op: CompositeOp,
    pub params: Params,
    pub map: bool,
    pub displace: bool,
    pub corner: Corner,
    pub tile: bool,
    pub overlay: bool,
    pub mask: ChannelMask,
    pub width: usize,
    pub height: usize,
    pub channels: usize,
    pub dw: usize,
    pub dh: usize,
    pub window: Window,
}
