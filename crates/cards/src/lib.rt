// A job as text: a card (document 02, A.2). The reader judges the whole card first, and fills the lent lists only where it accepts it.
// The contracts cite specs/; Cells, Forms and Card say what a card is, Answers what is answered and filled.
#![tactic(auto)]

mod holes; // holes.rt: what stands in a hole of a line's form
mod lines; // lines.rt: a line's form, and lines of one form

ghost use Rattle.std.specs.Prelude.{◌≡◌, length};
ghost use Rattle.layers.specs.Limits.{most_layers};
ghost use Rattle.cards.specs.Forms.{layer_form};
ghost use Rattle.cards.specs.Card.{read_lines, read_card};
ghost use Rattle.cards.specs.Answers.{table_length, args_length, answer_of, outcome, outcome_of, read_of};
ghost use Rattle.cards.specs.Steps.{written, written_of};

use layers::Layer;
use lines::{layer_lines, tray_line};

// What a card says beside its layers: the destination's width, height and channels, and how many layers there are (signed, as a job's
// call takes it).
#[derive(Clone, Copy, Debug, PartialEq, Eq)]
pub struct Header {
    pub width: i64,
    pub height: i64,
    pub channels: i64,
    pub layers: i64,
}

// Why a text is no card: its first line out of form or too many; 0 where a lent list has another length.
#[derive(Clone, Copy, Debug, PartialEq, Eq)]
pub struct BadCard {
    pub line: u64,
}

// The most layers, and the lengths of the lent lists.
const MOST: usize = Layer::MOST as usize;

const TABLE: usize = MOST * Layer::COLUMNS;

const ARGS: usize = MOST * Layer::ARGS;

// The table and the arguments are two lists, as a caller in C lends them.

// The layers' lines: where all are in form and none is too many, they fill the lists.
#[tactic(auto, using(crate::proofs::Outcome::layers_refused, crate::proofs::Outcome::layers_written))]
fn layers(text: &[u8], table: &mut [i64], args: &mut [u32]) -> Result<usize, BadCard>
    requires { (length table.old ≡ table_length) × (length args.old ≡ args_length) }
    ensures { written result table.new args.new ≡ written_of (read_lines layer_form most_layers 2 text.now) table.old args.old }
{
    let mut rows = [0; TABLE];
    let mut words = [0; ARGS];
    let count = layer_lines(text, &mut rows, &mut words)?;
    table.copy_from_slice(&rows);
    args.copy_from_slice(&words);
    Ok(count)
}

// The card that a text is, read into lists of the right lengths.
#[tactic(auto, using(crate::proofs::Outcome::layers_few, crate::proofs::Outcome::tray_refused, crate::proofs::Outcome::line_refused, crate::proofs::Outcome::card_read))]
fn read_lines(text: &[u8], table: &mut [i64], args: &mut [u32]) -> Result<Header, BadCard>
    requires { (length table.old ≡ table_length) × (length args.old ≡ args_length) }
    ensures { outcome (answer_of result) table.new args.new ≡ outcome_of (read_card text.now) table.old args.old }
{
    let ([width, height, channels], rest) = tray_line(text).ok_or(BadCard { line: 1 })?;
    let count = layers(rest, table, args)?;
    Ok(Header {
        width,
        height,
        channels,
        layers: count as i64,
    })
}

// The card that a text is, read into the layer table and the arguments.
#[tactic(auto, using(crate::proofs::Outcome::table_other, crate::proofs::Outcome::args_other, crate::proofs::Outcome::lengths_right))]
pub fn read(text: &[u8], table: &mut [i64], args: &mut [u32]) -> Result<Header, BadCard>
    ensures { outcome (answer_of result) table.new args.new ≡ read_of text.now table.old args.old }
{
    if table.len() != TABLE || args.len() != ARGS {
        return Err(BadCard { line: 0 });
    }
    read_lines(text, table, args)
}
