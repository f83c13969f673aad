// The text that a program is given on its standard input.
ghost use Rattle.std.specs.Prelude.{◌≤◌, length, IfOk};

use std::io;
use std::io::Read;

// Reads until the room is full or the input is at its end; how many bytes.
fn read_full(input: &mut impl Read, room: &mut [u8]) -> io::Result<usize>
    ensures { IfOk result (λ n. n ≤ length room.new) }
{
    let mut n = 0;
    for _ in 0..room.len() {
        let got = input.read(&mut room[n..])?;
        if got == 0 {
            break;
        }
        n += got;
    }
    Ok(n)
}

// The text on an input, all of it; an empty one where there is no room for it.
pub fn read_text<'a>(input: &mut impl Read, room: &'a mut [u8]) -> io::Result<&'a [u8]>
    ensures { IfOk result (λ text. length text.now ≤ length room.old) }
{
    let n = read_full(input, room)?;
    if n < room.len() {
        Ok(&room[..n])
    } else {
        Ok(&[])
    }
}
