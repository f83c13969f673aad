// The first fault of a job's inputs. The contracts cite specs/Inputs.
ghost use Rattle.std.specs.Prelude.{◌≡◌, ◌*◌, ◌≤◌, length};
ghost use Rattle.layers.specs.Inputs.{inputs_in, verdict_of, bad_stack, bad_dst, rows_fault, job_fault};
ghost use Rattle.layers.specs.Limits.{columns};

use crate::cells::part;
use crate::{JobInputs, Layer, Refusal};
use faults::Fault;
use pictures::Shape;
use pictures::shapes::{bad_shape, natural, outside, sample_count};

// Whether the count of layers is out of its range, or the table or the arguments are not as long as it says.
#[tactic(auto, unfolding(crate::specs::Inputs::bad_stack))]
fn bad_stack(count: i64, table: usize, args: usize) -> bool
    ensures { result ≡ bad_stack count table args }
{
    let n = natural(count);
    outside(count, 1, Layer::MOST) || table != n * Layer::COLUMNS || args != n * Layer::ARGS
}

// Whether the destination's shape is none, or its samples are not as many as it says.
#[tactic(auto, unfolding(crate::specs::Inputs::bad_dst))]
fn bad_dst(shape: Shape, dst: usize) -> bool
    ensures { result ≡ bad_dst shape dst }
{
    bad_shape(shape) || dst != sample_count(shape)
}

// The first fault of so many rows, with its row.
fn check_rows(table: &[i64], layers: usize, samples: usize) -> Result<(), Refusal>
    requires { layers * columns ≤ length table.now }
    ensures { verdict_of result ≡ rows_fault table.now samples 0 layers }
{
    for k in 0..layers {
        if let Err(fault) = Layer::check(part(table, Layer::COLUMNS, k), samples) {
            return Err(Refusal {
                fault,
                layer: k as u64,
            });
        }
    }
    Ok(())
}

// The first fault of a job's inputs: STACK and TRAY, then the rows' layer by layer.
#[tactic(auto, unfolding(crate::specs::Inputs::job_fault))]
pub fn check(i: JobInputs<'_>) -> Result<(), Refusal>
    ensures { verdict_of result ≡ job_fault (inputs_in i.entry) }
{
    Fault::Stack.when(bad_stack(i.count, i.table.len(), i.args.len()))?;
    Fault::Tray.when(bad_dst(i.shape, i.dst.len()))?;
    check_rows(i.table, natural(i.count), i.samples.len())
}
