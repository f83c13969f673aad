// Pixels written into a lent list of words, four a pixel.
ghost use Rattle.std.specs.Prelude.{◌≡◌, ◌+◌, ◌*◌, ◌≤◌, ◌<◌, length};
ghost use Rattle.pictures.specs.Widen.{rgba_at};
ghost use Rattle.pictures.specs.Steps.{filled, put_of};

use crate::Words;
use crate::widen::rgba_at;

// Pixel i is replaced.
pub fn put(out: &mut [u32], i: usize, w: Words)
    requires { 4 * i + 3 < length out.old }
    ensures { out.new ≡ put_of out.old i w }
{
    let at = 4 * i;
    out[at] = w.r;
    out[at + 1] = w.g;
    out[at + 2] = w.b;
    out[at + 3] = w.a;
}

// Pixels from .. from + count of a picture, widened, at the front of out.
pub fn widen(picture: &[u32], channels: usize, from: usize, count: usize, out: &mut [u32])
    requires { (1 ≤ channels) × (channels ≤ 4) × (channels * (from + count) ≤ length picture.now) × (4 * count ≤ length out.old) }
    ensures { out.new ≡ filled (λ i. rgba_at picture.now channels (from + i)) count out.old }
{
    for i in 0..count {
        put(out, i, rgba_at(picture, channels, from + i));
    }
}
