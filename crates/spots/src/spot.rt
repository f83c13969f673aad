// A spot's colour in a job's finished picture, from the job's inputs alone.
ghost use Rattle.std.specs.Prelude.{◌≡◌};
ghost use Rattle.faults.specs.Faults.{NONE};
ghost use Rattle.layers.specs.Inputs.{inputs_in};
ghost use Rattle.spots.specs.Answers.{answer_of, acceptance, spot_fault, spot_of};

use crate::SpotColour;
use crate::checks::fault;
use crate::colour::pixel;
use layers::{JobInputs, Refusal};
use pictures::shapes::{natural, width_of};

// The spot is two numbers beside the inputs: signed and unchecked, they are no pixel yet.

// A call without a fault. What is counted by the reads is what is answered.
fn accepted(inputs: JobInputs<'_>, x: i64, y: i64) -> SpotColour
    requires { (spot_fault (inputs_in inputs) x y).number ≡ NONE }
    ensures { answer_of (Ok result) ≡ acceptance (inputs_in inputs.entry) x y }
{
    let j = natural(y) * width_of(inputs.shape) + natural(x);
    let mut reads = 0;
    let colour = pixel(inputs, natural(inputs.count), j, &mut reads);
    SpotColour { colour, reads }
}

// The colour of the spot (x, y): its whole answer, for every input, is `spot_of`. Nothing is written.
#[tactic(auto, unfolding(crate::specs::Answers::spot_of))]
pub fn spot(inputs: JobInputs<'_>, x: i64, y: i64) -> Result<SpotColour, Refusal>
    ensures { answer_of result ≡ spot_of (inputs_in inputs.entry) x y }
{
    fault(inputs, x, y)?;
    Ok(accepted(inputs, x, y))
}
