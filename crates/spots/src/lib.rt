// One spot of a job's finished picture without its pictures (document 02, A.6): from the top layer down, each layer asks the picture beneath for what it
// needs, and one that takes all from its source asks for nothing. The contracts cite specs/Spots and Answers, and beneath the call Steps.
#![tactic(auto)]

pub mod spot; // spot.rt: the call
mod checks; // checks.rt: the faults of a call
mod colour; // colour.rt: the recursion on the layers, and the one function that reads the destination
mod beneath; // beneath.rt: what a layer needs of the picture beneath
mod layer_pixel; // layer_pixel.rt: a layer's pixel, from what it needs

use float_steps::axis::Axis;
use pictures::Words;

// What a pixel of a layer needs of the picture beneath.
#[derive(Clone, Copy)]
enum Needs {
    Kept, // the pixel as it is: the layer does not write it
    Nothing, // the layer takes all from its source
    Own, // its own pixel
    Around(Axis, Axis, bool), // the four neighbours of a column and a row, and its own pixel too unless all channels are on
}

// A spot's colour, and how often a pixel of the destination was read for it.
#[derive(Clone, Copy)]
pub struct SpotColour {
    pub colour: Words,
    pub reads: u64,
}
