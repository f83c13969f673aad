// The lines of a text: what stands before each line end, and what stands after the last, if anything does.
ghost use Rattle.std.specs.Prelude.{◌≡◌, ◌==◌, position};
ghost use Rattle.std.specs.Iterator.{YieldsFirstRef, item_count};
ghost use Rattle.verdicts.specs.Lines.{width_of, lines_of, first_of, asks, asked_of, right_at};

#[derive(Clone, Copy)]
pub(crate) struct Lines<'a> {
    rest: &'a [u8],
}

impl<'a> Lines<'a> {
    pub(crate) fn new(text: &'a [u8]) -> Self
        ensures { result.rest.now ≡ text.now }
    {
        Lines { rest: text }
    }
}

// Where a byte first stands.
pub(crate) fn position(bytes: &[u8], byte: u8) -> Option<usize>
    ensures { result ≡ position (λ b. b == byte) bytes.now }
{
    bytes.iter().position(|b| *b == byte)
}

// How many bytes a text has before its first line end.
#[tactic(auto, using(crate::proofs::Splitting::width_is))]
fn width(text: &[u8]) -> usize
    ensures { result ≡ width_of text.now }
{
    position(text, b'\n').unwrap_or(text.len())
}

impl<'a> Iterator for Lines<'a> {
    type Item = &'a [u8];

    ghost next_gives = { YieldsFirstRef (λ s. lines_of s.rest.now) };

    ghost remaining = { item_count (λ s. lines_of s.rest.now) };

    #[tactic(auto, using(crate::proofs::Splitting::end_bound, crate::proofs::Splitting::end_within, crate::proofs::Splitting::no_line, crate::proofs::Splitting::one_line, crate::proofs::Splitting::fewer_lines))]
    fn next(&mut self) -> Option<&'a [u8]> {
        if self.rest.is_empty() {
            return None;
        }
        let end = width(self.rest);
        let line = &self.rest[..end];
        self.rest = &self.rest[self.rest.len().min(end + 1)..];
        Some(line)
    }
}

// The first byte of a line; 0 where it is empty.
pub fn first(line: &[u8]) -> u8
    ensures { result ≡ first_of line.now }
{
    line.first().copied().unwrap_or(0)
}

// Whether a line asks something.
pub(crate) fn is_asked(line: &[u8]) -> bool
    ensures { result ≡ asks line.now }
{
    !line.is_empty() && first(line) != b'#'
}

// What a line asks.
pub fn asked(line: &[u8]) -> &[u8]
    ensures { result.now ≡ asked_of line.now }
{
    line.strip_prefix(b"!").unwrap_or(line)
}

// Whether a line is answered right whose answer ends at a place.
pub(crate) fn is_right(line: &[u8], place: usize) -> bool
    ensures { result ≡ right_at line.now place }
{
    (place == asked(line).len()) != (first(line) == b'!')
}
