// The recursion on the layers, from the top one down, and the one function that reads the destination. It is as deep as the job has layers, and keeps
// nothing: a pixel that is needed again is worked out, and its reads are counted, again.
ghost use Rattle.std.specs.Prelude.{◌≡◌, ◌+◌, ◌*◌, ◌^◌, ◌<◌, ◌≤◌, length};
ghost use Rattle.pictures.specs.Shapes.{nat_of};
ghost use Rattle.pictures.specs.Widen.{rgba_at, values_of};
ghost use Rattle.pictures.specs.Bilinear.{channels_of, neighbours_of};
ghost use Rattle.layers.specs.Inputs.{inputs_in};
ghost use Rattle.spots.specs.Spots.{around, colour_of, reads_of, sum_of};
ghost use Rattle.spots.specs.Steps.{Laid, Asked, AskedAt, AskedPlace, AskedAround};

use crate::Needs;
use crate::beneath::needs_of;
use crate::layer_pixel::{four, mixed, painted};
use compose::Plan;
use compose::plans::plan;
use compose::source::source_of;
use float_steps::axis::Axis;
use layers::{JobInputs, Layer};
use pictures::Words;
use pictures::shapes::{channels_of, height_of, width_of};
use pictures::widen::rgba_at;

// A pixel's own words where they are not looked at.
const ZEROS: Words = Words {
    r: 0,
    g: 0,
    b: 0,
    a: 0,
};

// Pixel j of the destination. Nothing else reads the destination's samples, and each use adds one to the count.
fn dst_pixel(dst: &[u32], channels: usize, j: usize, reads: &mut u64) -> Words
    requires { (1 ≤ channels) × (channels ≤ 4) × (channels * j + channels ≤ length dst.now) × (reads.old + 1 < 2 ^ 64) }
    ensures { (result ≡ rgba_at dst.now channels j) × (reads.new ≡ reads.old + 1) }
{
    *reads += 1;
    rgba_at(dst, channels, j)
}

// Layer n's plan on the destination, and its source.
fn laid<'a>(inputs: JobInputs<'a>, n: usize) -> (Plan, &'a [u32])
    requires { Asked (inputs_in inputs) (n + 1) }
    ensures { Laid (inputs_in inputs.entry) n result.0 result.1.now }
{
    let l = Layer::at(inputs.table, inputs.args, n);
    let p = plan(l, width_of(inputs.shape), height_of(inputs.shape));
    (p, source_of(inputs.samples, l))
}

// Pixel j of picture k: of picture 0 the destination's, of a later one what its layer makes of what it needs of the picture beneath.
#[cycle(neighbours_pixel)]
pub fn pixel(inputs: JobInputs<'_>, k: usize, j: usize, reads: &mut u64) -> Words
    requires { AskedAt (inputs_in inputs) k j reads.old }
    ensures { (result ≡ colour_of (inputs_in inputs.entry) k j)
        × (reads.new ≡ reads.old + reads_of (inputs_in inputs.entry) k j) }
{
    if k == 0 {
        return dst_pixel(inputs.dst, channels_of(inputs.shape), j, reads);
    }
    let n = k - 1;
    let (p, source) = laid(inputs, n);
    match needs_of(p, source, j) {
        Needs::Kept => pixel(inputs, n, j, reads),
        Needs::Nothing => painted(p, source, ZEROS, j),
        Needs::Own => {
            let own = pixel(inputs, n, j, reads);
            painted(p, source, own, j)
        }
        Needs::Around(x, y, all) => {
            let neighbours = neighbours(inputs, n, x, y, reads);
            let own = if all {
                ZEROS
            } else {
                pixel(inputs, n, j, reads)
            };
            mixed(p, x, y, neighbours, own)
        }
    }
}

// The pixel of picture k in a column and a row, as its four values.
#[cycle(neighbours_pixel)]
fn neighbour(
    inputs: JobInputs<'_>,
    k: usize,
    column: usize,
    row: usize,
    reads: &mut u64,
) -> [f32; 4]
    requires { AskedPlace (inputs_in inputs) k column row reads.old }
    ensures { let i = inputs_in inputs.entry in
        (result ≡ channels_of (values_of (colour_of i k (row * nat_of i.shape.width + column))))
        × (reads.new ≡ reads.old + reads_of i k (row * nat_of i.shape.width + column)) }
{
    four(pixel(inputs, k, row * width_of(inputs.shape) + column, reads))
}

// The four neighbours of a column and a row in picture k, row by row; each is worked out, also where two are the same pixel.
#[cycle(neighbours_pixel)]
fn neighbours(inputs: JobInputs<'_>, k: usize, x: Axis, y: Axis, reads: &mut u64) -> [[f32; 4]; 4]
    requires { AskedAround (inputs_in inputs) k x y reads.old }
    ensures { let i = inputs_in inputs.entry in
        (result ≡ neighbours_of (λ j. values_of (colour_of i k j)) (nat_of i.shape.width) x y)
        × (reads.new ≡ reads.old + sum_of (reads_of i k) (around (nat_of i.shape.width) x y)) }
{
    [
        neighbour(inputs, k, x.at, y.at, reads),
        neighbour(inputs, k, x.next, y.at, reads),
        neighbour(inputs, k, x.at, y.next, reads),
        neighbour(inputs, k, x.next, y.next, reads),
    ]
}
