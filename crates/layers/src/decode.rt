// A layer from its row and the words of its arguments. The contracts cite specs/Layers.
ghost use Rattle.std.specs.Prelude.{◌≡◌, ◌+◌, ◌*◌, ◌<◌, ◌≤◌, length};
ghost use Rattle.layers.specs.Layers.{flagged, mask_of, source_in, arg_of, args_of, layer_of, layer_at};
ghost use Rattle.layers.specs.Limits.{columns, arg_words};

use crate::cells::{cell, natural_at, part};
use crate::{Args, ChannelMask, Layer, Source, Window};
use operators::CompositeOp;
use places::Gravity;

// Whether a bit, a power of two, stands in the flags.
#[tactic(auto, unfolding(crate::specs::Layers::flagged))]
fn flag(flags: usize, bit: usize) -> bool
    requires { 0 < bit }
    ensures { result ≡ flagged flags bit }
{
    flags / bit % 2 == 1
}

impl ChannelMask {
    // The channels whose bits stand in a layer's flags.
    pub fn of(flags: usize) -> ChannelMask
        ensures { result ≡ mask_of flags }
    {
        ChannelMask {
            red: flag(flags, Self::RED),
            green: flag(flags, Self::GREEN),
            blue: flag(flags, Self::BLUE),
            alpha: flag(flags, Self::ALPHA),
        }
    }
}

impl Source {
    // The source that a row names. Beside `Window::of`: each names the fields of its own type, and their columns.
    fn of(row: &[i64]) -> Source
        requires { length row.now ≡ columns }
        ensures { result ≡ source_in row.now }
    {
        Source {
            first: natural_at(row, Layer::AT_FIRST),
            width: natural_at(row, Layer::AT_WIDTH),
            height: natural_at(row, Layer::AT_HEIGHT),
            channels: natural_at(row, Layer::AT_CHANNELS),
        }
    }
}

// Argument i of a layer's words, 0 where it is past the count.
#[tactic(auto, unfolding(crate::specs::Layers::arg_of))]
fn arg(words: &[u32], count: usize, i: usize) -> u32
    requires { i < length words.now }
    ensures { result ≡ arg_of words.now count i }
{
    if i < count { words[i] } else { 0 }
}

impl Args {
    // A layer's words, of which so many are read.
    fn of(words: &[u32], count: usize) -> Args
        requires { length words.now ≡ arg_words }
        ensures { result ≡ args_of words.now count }
    {
        Args {
            count,
            words: [
                arg(words, count, 0),
                arg(words, count, 1),
                arg(words, count, 2),
                arg(words, count, 3),
            ],
        }
    }
}

impl Layer {
    // A layer from its row, any row, and the words of its arguments: `fault` tells whether the row's numbers are in their ranges.
    #[tactic(auto, unfolding(crate::specs::Layers::layer_of))]
    pub fn of(row: &[i64], words: &[u32]) -> Layer
        requires { (length row.now ≡ columns) × (length words.now ≡ arg_words) }
        ensures { result ≡ layer_of row.now words.now }
    {
        let op = CompositeOp::at(natural_at(row, Self::AT_OPERATOR));
        let gravity = Gravity::from_number(natural_at(row, Self::AT_GRAVITY) as u64);
        let flags = natural_at(row, Self::AT_FLAGS);
        let mask = ChannelMask::of(flags);
        let source = Source::of(row);
        let args = Args::of(words, natural_at(row, Self::AT_COUNT));
        Layer {
            op,
            gravity,
            right: cell(row, Self::AT_RIGHT),
            down: cell(row, Self::AT_DOWN),
            tile: flag(flags, Self::TILE),
            outside_overlay: flag(flags, Self::OVERLAY),
            mask,
            source,
            args,
            window: Window::of(row),
        }
    }

    // Layer k of a job.
    #[tactic(auto, unfolding(crate::specs::Layers::layer_at))]
    pub fn at(table: &[i64], args: &[u32], k: usize) -> Layer
        requires { (k * columns + columns ≤ length table.now) × (k * arg_words + arg_words ≤ length args.now) }
        ensures { result ≡ layer_at table.now args.now k }
    {
        Self::of(part(table, Self::COLUMNS, k), part(args, Self::ARGS, k))
    }
}
