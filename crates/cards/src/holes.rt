// What stands in a hole of a form, and a byte of a form that is none. A function is given what is left of the text, and answers what is left after it.
ghost use Rattle.std.specs.Prelude.{◌≡◌, ◌≤◌, length};
ghost use Rattle.std.specs.Char.{is_ascii_lowercase};
ghost use Rattle.std.specs.List.{list_all, position};
ghost use Rattle.std.specs.Option.{option_copied};
ghost use Rattle.layers.specs.Limits.{arg_words};
ghost use Rattle.names.specs.Names.{entries, lookup};
ghost use Rattle.cards.specs.Forms.{is_end, word_of, rest_of, named, cell_of, read_word, read_words, as_arguments, read_byte, read_one};
ghost use Rattle.cards.specs.Steps.{column, after_byte, found_by, found_in, Apart};

use layers::Layer;

// What one byte of a form finds in a text: its cell's number, where it is a hole, and what is left of the text.
#[derive(Clone, Copy)]
pub struct Part<'a> {
    pub value: Option<i64>,
    pub rest: &'a [u8],
}

// Whether a text is of small letters alone, as all names are.
fn are_letters(s: &[u8]) -> bool
    ensures { result ≡ list_all is_ascii_lowercase s.now }
{
    s.iter().all(|b| b.is_ascii_lowercase())
}

// The number of the operator whose name a word is, letter for letter: `from_name` drops and lowers nothing of a word of small letters.
#[tactic(auto, using(crate::proofs::Names::no_letters, crate::proofs::Names::name_fits, crate::proofs::Names::name_known, crate::proofs::Names::name_unknown))]
fn name(s: &[u8]) -> Option<i64>
    ensures { result ≡ column (named s.now (lookup s.now entries)) }
{
    if !are_letters(s) {
        return None;
    }
    let n = names::from_name(s)?;
    Some(n as i64)
}

// The number that a word has in a hole for a name or for a number.
#[tactic(auto, using(crate::proofs::Reading::value_name, crate::proofs::Reading::number_value))]
fn value(c: u8, s: &[u8]) -> Option<i64>
    ensures { result ≡ column (cell_of c s.now) }
{
    if c == b'N' {
        name(s)
    } else {
        numerals::decimal(s)
    }
}

// Whether a byte ends a word.
#[tactic(auto, unfolding(crate::specs::Forms::is_end))]
fn is_end(b: u8) -> bool
    ensures { result ≡ is_end b }
{
    matches!(b, b' ' | b')')
}

// Where the word ends with which a text begins; nowhere, if the text is that word.
fn word_end(s: &[u8]) -> Option<usize>
    ensures { result ≡ position is_end s.now }
{
    s.iter().position(|b| is_end(*b))
}

// A text cut after the word with which it begins.
#[tactic(auto, using(crate::proofs::Reading::word_is, crate::proofs::Reading::rest_is, crate::proofs::Reading::word_within))]
fn split_word(s: &[u8]) -> (&[u8], &[u8])
    ensures word { result.0.now ≡ word_of s.now }
    ensures rest { result.1.now ≡ rest_of s.now }
{
    let n = word_end(s).unwrap_or(s.len());
    s.split_at(n)
}

// A word in a hole for a name or for a number.
fn word(s: &[u8], c: u8) -> Option<Part<'_>>
    ensures { Apart result (read_word c s.now) }
{
    let (word, rest) = split_word(s);
    let value = value(c, word)?;
    Some(Part {
        value: Some(value),
        rest,
    })
}

// What is left of a text after a byte with which it begins.
fn after(s: &[u8], c: u8) -> Option<&[u8]>
    ensures { option_copied result ≡ after_byte c s.now }
{
    match s {
        [b, rest @ ..] if *b == c => Some(rest),
        _ => None,
    }
}

// A byte that the form names.
fn byte(s: &[u8], c: u8) -> Option<Part<'_>>
    ensures { Apart result (read_byte c s.now) }
{
    let rest = after(s, c)?;
    Some(Part { value: None, rest })
}

// The arguments: at most four words, each after a space, which go to the front of the list.
fn arguments<'a>(s: &'a [u8], args: &mut [u32]) -> Option<Part<'a>>
    requires { arg_words ≤ length args.old }
    ensures { found_by result args.new ≡ found_in args.old (as_arguments (read_words arg_words s.now)) }
{
    let mut rest = s;
    for k in 0..Layer::ARGS {
        let Some(next) = after(rest, b' ') else {
            return Some(Part {
                value: Some(k as i64),
                rest,
            });
        };
        let (word, end) = split_word(next);
        args[k] = numerals::hex(word)?;
        rest = end;
    }
    Some(Part {
        value: Some(Layer::ARGS as i64),
        rest,
    })
}

// One byte of a form.
#[tactic(auto, using(crate::proofs::Reading::one_name, crate::proofs::Reading::one_number, crate::proofs::Reading::one_arguments, crate::proofs::Reading::one_byte))]
pub fn one<'a>(s: &'a [u8], c: u8, args: &mut [u32]) -> Option<Part<'a>>
    requires { arg_words ≤ length args.old }
    ensures { found_by result args.new ≡ found_in args.old (read_one c s.now) }
{
    match c {
        b'N' | b'D' => word(s, c),
        b'A' => arguments(s, args),
        _ => byte(s, c),
    }
}
