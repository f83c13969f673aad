// How large a job is, whose inputs have no fault.
ghost use Rattle.std.specs.Prelude.{◌≡◌};
ghost use Rattle.faults.specs.Faults.{NONE};
ghost use Rattle.layers.specs.Inputs.{inputs_in, job_fault};
ghost use Rattle.job.specs.Job.{pixel_count, end_of};

use layers::JobInputs;
use pictures::shapes::{height_of, natural, width_of};

// The pixels of its destination, and of each picture.
pub fn pixel_count(inputs: JobInputs<'_>) -> usize
    requires { (job_fault (inputs_in inputs)).number ≡ NONE }
    ensures { result ≡ pixel_count (inputs_in inputs.entry) }
{
    width_of(inputs.shape) * height_of(inputs.shape)
}

// The position at which it is finished.
pub fn end_of(inputs: JobInputs<'_>) -> usize
    requires { (job_fault (inputs_in inputs)).number ≡ NONE }
    ensures { result ≡ end_of (inputs_in inputs.entry) }
{
    (natural(inputs.count) + 1) * pixel_count(inputs)
}
