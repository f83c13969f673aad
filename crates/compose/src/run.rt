// Runs of pixels: the one loop of composition. The single composition and the job both come here, so that the operators' match has one call site.
ghost use Rattle.std.specs.Prelude.{◌≡◌, ◌+◌, ◌*◌, ◌≤◌, length};
ghost use Rattle.pictures.specs.Widen.{rgba_at};
ghost use Rattle.pictures.specs.Steps.{filled, values_at};
ghost use Rattle.compose.specs.Plans.{pixels_from, pixel_on};
ghost use Rattle.compose.specs.Ready.{Ready, Run, Span};

use crate::Plan;
use crate::pixel::composed;
use pictures::flat::put;
use pictures::widen::rgba_at;

// Pixels are composed this many at a time, into a buffer of four words each. With fewer, decoding their layer each time would cost more; with more,
// clearing the buffer would cost more in a short call.
pub const SPAN: usize = 128;

// Pixels from .. from + count of the result, at the front of out. Their own pixels beneath are the first of `beneath`; a map reads the whole picture, and
// no other operator any of it. The picture and its channels stand apart: what is known of them is of the plan's sides, and of a map alone, so that a type
// of the two could not hold it. A plan and its source stand apart too: docs/READING.md names this function and `source_pixel`, which ask for `Ready` in a
// clause, and a type that holds it would ask for more.
pub fn run(
    p: Plan,
    source: &[u32],
    picture: &[u32],
    channels: usize,
    beneath: &[u32],
    from: usize,
    count: usize,
    out: &mut [u32],
)
    requires { (Ready p (length source.now))
        × (Run p (length picture.now) channels from count)
        × (4 * count ≤ length beneath.now)
        × (4 * count ≤ length out.old) }
    ensures { out.new
        ≡ filled (pixels_from p source.now (values_at picture.now channels) (rgba_at beneath.now 4) from)
        count out.old }
{
    if count == 0 {
        return;
    }
    let dw = p.dw;
    let mut x = from % dw;
    let mut y = from / dw;
    for i in 0..count {
        let own = rgba_at(beneath, 4, i);
        put(out, i, composed(p, source, picture, channels, own, x, y));
        x += 1;
        if x == dw {
            x = 0;
            y += 1;
        }
    }
}

// The same on a picture of four channels, whose own pixels are those beneath.
pub fn span(p: Plan, source: &[u32], picture: &[u32], from: usize, count: usize, out: &mut [u32])
    requires { (Ready p (length source.now))
        × (Span p (length picture.now) 4 from count)
        × (4 * count ≤ length out.old) }
    ensures { out.new
        ≡ filled (λ i. pixel_on p source.now (rgba_at picture.now 4) (from + i)) count out.old }
{
    let at = 4 * from;
    run(p, source, picture, 4, &picture[at..], from, count, out);
}
