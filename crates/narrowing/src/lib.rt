// Narrowing: a picture of four channels, lent as words, into a lent output of one, three or four channels, as words or as bytes
// (`to_channels`, `luma` and `narrow_u8` of deep.rs, `luma` with the weights of document 02). A call that is refused writes nothing.
// The contracts cite specs/Luma and specs/Narrow.
#![tactic(auto)]

ghost use Rattle.std.specs.Prelude.{◌≡◌, ◌*◌, ◌/◌, ◌<◌, ℕ, length, get_or, map};
ghost use Rattle.float_steps.specs.Whole.{byte_of};
ghost use Rattle.float_steps.specs.Words.{value_of};
ghost use Rattle.faults.specs.Numbers.{number_in};
ghost use Rattle.pictures.specs.Shapes.{nat_of};
ghost use Rattle.pictures.specs.Steps.{Channels};
ghost use Rattle.narrowing.specs.Luma.{luma_of};
ghost use Rattle.narrowing.specs.Narrow.{narrowed_of, written_unless, bad_narrowing, narrow_fault, narrowed, narrow_of, narrow_bytes_of};

use faults::Fault;
use float_steps::whole::byte;
use float_steps::words::{value, word};
use pictures::shapes::{bad_channels, natural};
use pictures::widen::{rgba_at, values};
use pictures::{Rgba, weights};

// A sample of the output, made of a word of the narrowed picture.
trait Sample: Copy {
    ghost made_of: { ℕ → Self };

    fn of_word(word: u32) -> Self
        ensures { result ≡ made_of word };
}

impl Sample for u32 {
    ghost made_of = { λ word. word };

    fn of_word(word: u32) -> u32 {
        word
    }
}

impl Sample for u8 {
    ghost made_of = { λ word. byte_of (value_of word) };

    fn of_word(word: u32) -> u8 {
        byte(value(word))
    }
}

// The gray of a pixel. It is `intensity` of crates/pixels, and not a call of that, so that it can change alone (docs/READING.md, "the gray alone").
#[tactic(auto, unfolding(crate::specs::Luma::luma_of))]
pub fn luma(p: Rgba) -> f32
    ensures { result ≡ luma_of p }
{
    weights::RED * p.r + weights::GREEN * p.g + weights::BLUE * p.b
}

// Word i of the narrowed picture. A channel that is kept has all its bits.
fn narrowed_at(channels: usize, input: &[u32], i: usize) -> u32
    requires { Channels channels × (i < length input.now / 4 * channels) }
    ensures { result ≡ get_or (narrowed_of channels input.now) i 0 }
{
    match channels {
        1 => word(luma(values(rgba_at(input, 4, i)))),
        3 => input[4 * (i / 3) + i % 3],
        _ => input[i],
    }
}

// Whether the channels wanted, or the lengths of the input and the output, are refused.
#[tactic(auto, unfolding(crate::specs::Narrow::bad_narrowing))]
fn bad_narrowing(wanted: i64, input: usize, output: usize) -> bool
    ensures { result ≡ bad_narrowing wanted input output }
{
    bad_channels(wanted) || input % 4 != 0 || output != input / 4 * natural(wanted)
}

// The whole output, made of channels and lengths that are not refused.
fn fill<S: Sample>(channels: usize, input: &[u32], output: &mut [S])
    requires { Channels channels × (length input.now / 4 * channels ≡ length output.old) }
    ensures { output.new ≡ map S.made_of (narrowed_of channels input.now) }
{
    for (i, sample) in output.iter_mut().enumerate() {
        *sample = S::of_word(narrowed_at(channels, input, i));
    }
}

// The input narrowed to the channels wanted, into samples of either type.
#[tactic(auto, unfolding(crate::specs::Narrow::narrow_fault))]
fn narrow_into<S: Sample>(wanted: i64, input: &[u32], output: &mut [S]) -> Result<(), Fault>
    ensures answered { number_in result ≡ narrow_fault wanted (length input.now) (length output.old) }
    ensures written { output.new
        ≡ written_unless (narrow_fault wanted (length input.now) (length output.old)) (map S.made_of (narrowed_of (nat_of wanted) input.now)) output.old }
{
    Fault::Narrow.when(bad_narrowing(wanted, input.len(), output.len()))?;
    fill(natural(wanted), input, output);
    Ok(())
}

// The input narrowed to the channels wanted, as words.
#[tactic(auto, unfolding(crate::specs::Narrow::narrowed_unless))]
pub fn narrow(wanted: i64, input: &[u32], output: &mut [u32]) -> Result<(), Fault>
    ensures { narrowed (number_in result) output.new ≡ narrow_of wanted input.now output.old }
{
    narrow_into::<u32>(wanted, input, output)
}

// The same as bytes.
#[tactic(auto, unfolding(crate::specs::Narrow::narrowed_unless))]
pub fn narrow_bytes(wanted: i64, input: &[u32], output: &mut [u8]) -> Result<(), Fault>
    ensures { narrowed (number_in result) output.new ≡ narrow_bytes_of wanted input.now output.old }
{
    narrow_into::<u8>(wanted, input, output)
}
