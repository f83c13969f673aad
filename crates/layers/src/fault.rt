// The faults of a row, for the number of the source samples. The contracts cite specs/Faults.
ghost use Rattle.std.specs.Prelude.{◌≡◌, length};
ghost use Rattle.faults.specs.Numbers.{number_in};
ghost use Rattle.layers.specs.Faults.{bad_placing, source_shape, bad_source, bad_window, layer_fault};
ghost use Rattle.layers.specs.Limits.{columns};

use crate::Layer;
use crate::cells::{cell, outside_at};
use faults::Fault;
use operators::CompositeOp;
use pictures::Shape;
use pictures::shapes::{bad_shape, natural, sample_count};
use places::Gravity;

// Whether the gravity or an offset is out of its range.
#[tactic(auto, unfolding(crate::specs::Faults::bad_placing))]
fn bad_placing(row: &[i64]) -> bool
    requires { length row.now ≡ columns }
    ensures { result ≡ bad_placing row.now }
{
    outside_at(row, Layer::AT_GRAVITY, 0, Gravity::LAST as i64)
        || outside_at(row, Layer::AT_RIGHT, -Layer::OFFSET, Layer::OFFSET)
        || outside_at(row, Layer::AT_DOWN, -Layer::OFFSET, Layer::OFFSET)
}

// The shape of the source, as a row gives it.
fn source_shape(row: &[i64]) -> Shape
    requires { length row.now ≡ columns }
    ensures { result ≡ source_shape row.now }
{
    Shape {
        width: cell(row, Layer::AT_WIDTH),
        height: cell(row, Layer::AT_HEIGHT),
        channels: cell(row, Layer::AT_CHANNELS),
    }
}

// Whether a row's source has a start, a side or channels out of their range, or does not lie in so many samples.
#[tactic(auto, unfolding(crate::specs::Faults::bad_source))]
fn bad_source(row: &[i64], samples: usize) -> bool
    requires { length row.now ≡ columns }
    ensures { result ≡ bad_source row.now samples }
{
    let first = cell(row, Layer::AT_FIRST);
    let shape = source_shape(row);
    // The last test stands apart: samples are counted only of a shape in its range.
    if first < 0 || bad_shape(shape) {
        return true;
    }
    samples < natural(first) + sample_count(shape)
}

// Whether a number of a row's window is out of its range.
#[tactic(auto, unfolding(crate::specs::Faults::bad_window))]
fn bad_window(row: &[i64]) -> bool
    requires { length row.now ≡ columns }
    ensures { result ≡ bad_window row.now }
{
    outside_at(row, Layer::AT_LEFT, 0, Layer::WINDOW)
        || outside_at(row, Layer::AT_TOP, 0, Layer::WINDOW)
        || outside_at(row, Layer::AT_WINDOW_WIDTH, 0, Layer::WINDOW)
        || outside_at(row, Layer::AT_WINDOW_HEIGHT, 0, Layer::WINDOW)
}

impl Layer {
    // A row's first fault, if it has one.
    #[tactic(auto, unfolding(crate::specs::Faults::layer_fault))]
    pub fn check(row: &[i64], samples: usize) -> Result<(), Fault>
        requires { length row.now ≡ columns }
        ensures { number_in result ≡ layer_fault row.now samples }
    {
        CompositeOp::from_number(cell(row, Self::AT_OPERATOR))?;
        Fault::Placing.when(bad_placing(row))?;
        Fault::Flags.when(outside_at(row, Self::AT_FLAGS, 0, Self::FLAGS))?;
        Fault::Source.when(bad_source(row, samples))?;
        Fault::Arguments.when(outside_at(row, Self::AT_COUNT, 0, Self::ARGS as i64))?;
        Fault::Window.when(bad_window(row))
    }
}
