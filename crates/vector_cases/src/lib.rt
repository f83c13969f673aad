// One function a kind of line: it reads what is asked, calls the library, and holds the answer against what the line says. Each answers the place
// after the line's last token, or NOWHERE where the line is malformed or its answer is another.
#![tactic(auto)]

ghost use Rattle.std.specs.Prelude.{◌≡◌};
ghost use Rattle.vector_lines.specs.Numbers.{u64_at};
ghost use Rattle.names.specs.Names.{from_name};
ghost use Rattle.cards.specs.Answers.{read_of};
ghost use Rattle.tray.specs.Answers.{name_of};
ghost use Rattle.vector_rooms.specs.Rooms.{placed, single_in};
ghost use Rattle.vector_cases.specs.Cases.{name_at, named_at, written_at, narrowing_at};
ghost use Rattle.vector_cases.specs.Cases.{composed_by, composition_at};
ghost use Rattle.vector_cases.specs.Cases.{answers_at, answers_of, read_at, lent_at, card_at};

use vector_lines::{NOWHERE, Number, expect, if_same, list, number_up_to};
use vector_rooms::{Asked, Lists, OUT, Picture, Room, shape_of};

// The most numbers and words that a card is lent.
const TABLE: usize = 320;

const ARGS: usize = 128;

// What an output of words, of bytes or of signed numbers holds before it is lent.
const FILL: u32 = 0xa5a5_a5a5;

const FILL_BYTE: u8 = 0xa5;

const FILL_NUMBER: i64 = 0x25a5_a5a5_a5a5_a5a5;

// F NAME: number operator.
#[tactic(auto, unfolding(crate::specs::Cases::text_by))]
pub fn name(line: &[u8]) -> usize
    ensures { result ≡ name_at line.now }
{
    let mut text: Room<u8, 128> = Room::new(0);
    let at = text.read(line, 1);
    named(line, at, text.as_slice())
}

fn named(line: &[u8], at: usize, text: &[u8]) -> usize
    ensures { result ≡ named_at line.now at (name_of (from_name text.now) 0) }
{
    let mut operator: u64 = 0;
    let answer = tray::tray_from_name(text, &mut operator);
    expect(line, expect(line, at, answer), operator)
}

// The place after an output that must be as `out` is: its list is read over `due`, which is as the output was before the call.
#[tactic(auto, unfolding(crate::specs::Cases::listed_as))]
fn written<T: Number + PartialEq>(line: &[u8], at: usize, due: &mut [T], out: &[T]) -> usize
    ensures { result ≡ written_at T.eq (T.read_at line.now) line.now at due.old out.now }
{
    let mut count = out.len();
    let next = list(line, at, due, &mut count);
    let room = due.len();
    if_same(&due[..count.min(room)] == out, next)
}

// N or B, to words or to bytes, wanted INPUT length: number OUT. Two branches, since the exported calls are two, `tray_narrow` and `tray_narrow_bytes`; what
// they write is held against the line by one function.
pub fn narrowing(line: &[u8], to_bytes: bool, input: &mut Picture) -> usize
    ensures { placed result input.new ≡ narrowing_at to_bytes line.now input.old }
{
    let wanted = i64::read(line, 1);
    let length = u64::read(line, input.read(line, wanted.next));
    if length.value > OUT as u64 {
        return NOWHERE;
    }
    let n = length.value as usize;
    if to_bytes {
        let mut out = [FILL_BYTE; OUT];
        let out = &mut out[..n];
        let number = tray::tray_narrow_bytes(wanted.value, input.as_slice(), out);
        return written(
            line,
            expect(line, length.next, number),
            &mut [FILL_BYTE; OUT],
            out,
        );
    }
    let mut out = [FILL; OUT];
    let out = &mut out[..n];
    let number = tray::tray_narrow(wanted.value, input.as_slice(), out);
    written(
        line,
        expect(line, length.next, number),
        &mut [FILL; OUT],
        out,
    )
}

// C width height channels DST TABLE ARGS SAMPLES length: number OUT.
pub fn composition(line: &[u8], lists: &mut Lists) -> usize
    ensures { placed result lists.new ≡ composition_at line.now lists.old }
{
    let shape = shape_of(line);
    let after_dst = lists.dst.read(line, shape.next);
    let after_lists = lists.read_layers(line, after_dst);
    composed(line, after_lists, lists.asked(shape.value, 1))
}

fn composed(line: &[u8], at: usize, asked: Asked<'_>) -> usize
    ensures { result ≡ composed_by line.now (single_in asked.entry) (u64_at line.now at) }
{
    let length = u64::read(line, at);
    if length.value > OUT as u64 {
        return NOWHERE;
    }
    let mut out = [FILL; OUT];
    let out = &mut out[..length.value as usize];
    let number = tray::tray_compose(
        asked.shape.width,
        asked.shape.height,
        asked.shape.channels,
        asked.dst,
        asked.table,
        asked.args,
        asked.samples,
        out,
    );
    written(
        line,
        expect(line, length.next, number),
        &mut [FILL; OUT],
        out,
    )
}

// R TEXT table args: number line width height channels layers TABLE ARGS. Its text has a room of another size than a name's: a function over the size would
// owe that the room is not too large.
#[tactic(auto, unfolding(crate::specs::Cases::text_by))]
pub fn card(line: &[u8]) -> usize
    ensures { result ≡ card_at line.now }
{
    let mut text: Room<u8, 2048> = Room::new(0);
    let at = text.read(line, 1);
    card_lent(line, at, text.as_slice())
}

// What the exported call answers to a card, in its numbers; `line` is the one that is refused.
#[derive(Clone, Copy)]
struct CardAnswer {
    number: u64,
    line: u64,
    width: i64,
    height: i64,
    channels: i64,
    layers: i64,
}

// The table and the arguments are lent with the lengths that the line says.
fn card_lent(line: &[u8], at: usize, text: &[u8]) -> usize
    ensures { result ≡ lent_at line.now at text.now }
{
    let numbers = number_up_to(line, at, TABLE as u64);
    let words = number_up_to(line, numbers.next, ARGS as u64);
    let mut table = [FILL_NUMBER; TABLE];
    let mut args = [FILL; ARGS];
    card_read(
        line,
        words.next,
        text,
        &mut table[..numbers.value as usize],
        &mut args[..words.value as usize],
    )
}

fn card_read(line: &[u8], at: usize, text: &[u8], table: &mut [i64], args: &mut [u32]) -> usize
    ensures { result ≡ read_at line.now at (read_of text.now table.old args.old) }
{
    let mut a = CardAnswer {
        number: 0,
        line: 0,
        width: 0,
        height: 0,
        channels: 0,
        layers: 0,
    };
    a.number = tray::tray_read_card(
        text,
        table,
        args,
        &mut a.line,
        &mut a.width,
        &mut a.height,
        &mut a.channels,
        &mut a.layers,
    );
    let after_answers = card_answered(line, at, a);
    let after_table = written(line, after_answers, &mut [FILL_NUMBER; TABLE], table);
    written(line, after_table, &mut [FILL; OUT], args)
}

// The place after the answers to a card.
fn card_answered(line: &[u8], at: usize, a: CardAnswer) -> usize
    ensures { result ≡ answers_at line.now at (answers_of a) }
{
    let sides = expect(line, expect(line, at, a.number), a.line);
    let after_sides = expect(line, expect(line, sides, a.width), a.height);
    expect(line, expect(line, after_sides, a.channels), a.layers)
}
