// Lines: a form read from the front of a text, and lines of one form. The numbers of the holes go to the table, the arguments to their list; a layer's row
// ends in the window of edition 1.
ghost use Rattle.std.specs.Prelude.{◌≡◌, ◌+◌, ◌*◌, ◌≤◌, ◌<◌, ◌^◌, length};
ghost use Rattle.std.specs.Option.{option_map};
ghost use Rattle.layers.specs.Limits.{columns, arg_words, most_layers, at_left};
ghost use Rattle.cards.specs.Forms.{tray_form, layer_form, read_form};
ghost use Rattle.cards.specs.Card.{read_lines};
ghost use Rattle.cards.specs.Steps.{holes, filled_by, filled_in, layer_in, numbers_in, counted_by, counted_in};

use crate::holes::one;
use crate::{ARGS, BadCard, MOST, TABLE};
use layers::Layer;

// The window that a card of edition 1 yields: left, top, width and height.
const FULL_WINDOW: [i64; 4] = [0, 0, 2048, 2048];

// A form, read from the front of a text: the numbers of its holes go to the row, its arguments to their list. What is left of the text.
#[tactic(auto, using(crate::proofs::Filling::refused, crate::proofs::Filling::byte_taken, crate::proofs::Filling::byte_counted, crate::proofs::Filling::cell_taken, crate::proofs::Filling::cell_counted, crate::proofs::Filling::ended))]
fn scan<'a>(s: &'a [u8], form: &[u8], row: &mut [i64], args: &mut [u32]) -> Option<&'a [u8]>
    requires { (holes form.now ≤ length row.old) × (arg_words ≤ length args.old) }
    ensures { filled_by result row.new args.new ≡ filled_in row.old 0 args.old (read_form form.now s.now) }
{
    let mut rest = s;
    let mut k = 0;
    for &c in form {
        let part = one(rest, c, args)?;
        if let Some(value) = part.value {
            row[k] = value;
            k += 1;
        }
        rest = part.rest;
    }
    Some(rest)
}

// A layer's line: the numbers of the form's holes, and after them the window. What is left of the text.
#[tactic(auto, using(crate::proofs::Counting::no_layer, crate::proofs::Counting::one_layer))]
fn layer<'a>(s: &'a [u8], form: &[u8], row: &mut [i64], args: &mut [u32]) -> Option<&'a [u8]>
    requires form_holes { holes form.now ≡ at_left }
    requires room { (columns ≤ length row.old) × (arg_words ≤ length args.old) }
    ensures { filled_by result row.new args.new ≡ layer_in row.old args.old (read_form form.now s.now) }
{
    let rest = scan(s, form, row, args)?;
    row[Layer::AT_LEFT..Layer::COLUMNS].copy_from_slice(&FULL_WINDOW);
    Some(rest)
}

// Lines of one form, at most so many; the first of them is the second of the card. How many there are.
#[tactic(auto, using(crate::proofs::Counting::begun, crate::proofs::Counting::ended, crate::proofs::Counting::too_many, crate::proofs::Counting::out_of_form, crate::proofs::Counting::in_form_lem))]
fn lines(
    s: &[u8],
    form: &[u8],
    most: usize,
    table: &mut [i64],
    args: &mut [u32],
) -> Result<usize, BadCard>
    requires form_holes { holes form.now ≡ at_left }
    requires room { (most * columns ≤ length table.old) × (most * arg_words ≤ length args.old) }
    ensures { counted_by result table.new args.new ≡ counted_in table.old args.old 0 (read_lines form.now most 2 s.now) }
{
    let mut rest = s;
    for k in 0..most {
        if rest.is_empty() {
            return Ok(k);
        }
        let row = &mut table[k * Layer::COLUMNS..];
        let words = &mut args[k * Layer::ARGS..];
        let bad = BadCard { line: k as u64 + 2 };
        rest = layer(rest, form, row, words).ok_or(bad)?;
    }
    if rest.is_empty() {
        Ok(most)
    } else {
        Err(BadCard {
            line: most as u64 + 2,
        })
    }
}

// The tray's line: its numbers, and what is left of the text.
#[tactic(auto, using(crate::proofs::Outcome::tray_none, crate::proofs::Outcome::tray_some), unfolding(crate::specs::Forms::tray_form, crate::specs::Forms::is_hole))]
pub fn tray_line(s: &[u8]) -> Option<([i64; 3], &[u8])>
    ensures { option_map (λ t. (t.0, t.1.now)) result ≡ numbers_in (read_form tray_form s.now) }
{
    let form = b"(tray 1 D D D)\n";
    let mut numbers = [0; 3];
    let rest = scan(s, form, &mut numbers, &mut [0; Layer::ARGS])?;
    Some((numbers, rest))
}

// The layers' lines. How many there are.
#[tactic(auto, unfolding(crate::specs::Forms::layer_form, crate::specs::Forms::is_hole))]
pub fn layer_lines(
    s: &[u8],
    table: &mut [i64; TABLE],
    args: &mut [u32; ARGS],
) -> Result<usize, BadCard>
    ensures { counted_by result table.new args.new ≡ counted_in table.old args.old 0 (read_lines layer_form most_layers 2 s.now) }
{
    let form = b"(layer N (place D D D) (flags D) (source D D D D) (argsA))\n";
    lines(s, form, MOST, table, args)
}
