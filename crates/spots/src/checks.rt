// The faults of a call: those of the job's inputs, then those of the spot.
ghost use Rattle.std.specs.Prelude.{◌≡◌, ◌*◌, ◌≤◌, length};
ghost use Rattle.layers.specs.Inputs.{inputs_in, verdict_of};
ghost use Rattle.layers.specs.Limits.{columns, arg_words};
ghost use Rattle.spots.specs.Spots.{maps_of};
ghost use Rattle.spots.specs.Answers.{layer_count, off, bad_spot, spot_fault};

use compose::plans::reads_through;
use faults::Fault;
use layers::{JobInputs, Layer, Refusal, check};
use pictures::shapes::natural;

// The most map layers of a job whose spots are worked out.
const MOST_MAPS: usize = 4;

// The map layers among the first `layers`.
#[tactic(auto, unfolding(crate::specs::Spots::maps_of))]
fn maps(table: &[i64], args: &[u32], layers: usize) -> usize
    requires { (layers * columns ≤ length table.now) × (layers * arg_words ≤ length args.now) }
    ensures { result ≡ maps_of table.now args.now layers }
{
    let mut count = 0;
    for k in 0..layers {
        count += usize::from(reads_through(Layer::at(table, args, k).op));
    }
    count
}

// Whether a coordinate is none of a side's, 0 to side - 1.
fn off(side: i64, at: i64) -> bool
    ensures { result ≡ off side at }
{
    at < 0 || at >= side
}

// Whether the spot is off the destination or the job has too many map layers.
#[tactic(auto, unfolding(crate::specs::Answers::bad_spot))]
fn bad_spot(inputs: JobInputs<'_>, x: i64, y: i64) -> bool
    requires { (layer_count (inputs_in inputs) * columns ≤ length inputs.table.now) × (layer_count (inputs_in inputs) * arg_words ≤ length inputs.args.now) }
    ensures { result ≡ bad_spot (inputs_in inputs.entry) x y }
{
    off(inputs.shape.width, x)
        || off(inputs.shape.height, y)
        || MOST_MAPS < maps(inputs.table, inputs.args, natural(inputs.count))
}

// The first fault of a call. That of a spot concerns no layer.
#[tactic(auto, unfolding(crate::specs::Answers::spot_fault))]
pub fn fault(inputs: JobInputs<'_>, x: i64, y: i64) -> Result<(), Refusal>
    ensures { verdict_of result ≡ spot_fault (inputs_in inputs.entry) x y }
{
    check(inputs)?;
    Fault::Spot.when(bad_spot(inputs, x, y))?;
    Ok(())
}
