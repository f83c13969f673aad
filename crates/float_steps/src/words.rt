// Between a binary32 pattern, as pictures hold it, and its value.
ghost use Rattle.std.specs.Prelude.{◌≡◌};
ghost use Rattle.float_steps.specs.Words.{value_of, word_of};

use std::num::{f32_from_bits_with_nan, f32_to_bits_with_nan};

// The value of a word. Every NaN pattern is the one NaN.
pub fn value(word: u32) -> f32
    ensures { result ≡ value_of word }
{
    f32_from_bits_with_nan(word)
}

// The word of a value. A NaN is stored as 7FC00000.
pub fn word(v: f32) -> u32
    ensures { result ≡ word_of v }
{
    f32_to_bits_with_nan(v)
}
