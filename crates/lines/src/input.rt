// Standard input through a lent buffer. Which bytes the system puts there, and how many, no contract can say; what stood there, and what is answered then, is.
ghost use Rattle.std.specs.Prelude.{◌-◌, ◌≤◌, ◌<◌, true, false, ◌≡◌, length, take, drop};
ghost use Rattle.lines.specs.Input.{ended_input, leaves_room, ReadBehind};
ghost use Rattle.lines.specs.Over.{over};

use std::io::{Read, Stdin};

// The number that the system has for standard input.
pub const STDIN_FILENO: i32 = 0;

// The bytes of the buffer that are read and not yet used, from..to, and whether the input has ended.
#[derive(Clone, Copy)]
pub struct Input {
    pub from: usize,
    pub to: usize,
    pub ended: bool,
}

// The bytes between two places to the front.
fn shift(buf: &mut [u8], from: usize, to: usize)
    requires { (from ≤ to) × (to ≤ length buf.old) }
    ensures { buf.new ≡ over (take (to - from) (drop from buf.old)) buf.old }
{
    for i in 0..to - from {
        buf[i] = buf[from + i];
    }
}

// How many bytes one reading gave; none where it failed.
fn read_part(stdin: Stdin, part: &mut [u8]) -> usize
    ensures { result ≤ length part.old }
{
    let mut from = stdin;
    from.read(part).unwrap_or(0)
}

// Reads once, behind the n bytes that are there.
fn read_behind(stdin: Stdin, buf: &mut [u8], n: usize) -> Input
    ensures { (n < length buf.old → ReadBehind n buf.old buf.new result)
        × (length buf.old ≤ n → (result ≡ ended_input) × (buf.new ≡ buf.old)) }
{
    if n < buf.len() {
        let got = read_part(stdin, &mut buf[n..]);
        return Input {
            from: 0,
            to: n + got,
            ended: got == 0,
        };
    }
    ended()
}

fn ended() -> Input
    ensures { result ≡ ended_input }
{
    Input {
        from: 0,
        to: 0,
        ended: true,
    }
}

// What is not yet used goes to the front, and the input is read once behind it.
pub fn more(stdin: Stdin, buf: &mut [u8], from: usize, to: usize) -> Input
    ensures { (leaves_room from to (length buf.old) ≡ true → ReadBehind (to - from) (drop from buf.old) buf.new result)
        × (leaves_room from to (length buf.old) ≡ false → (result ≡ ended_input) × (buf.new ≡ buf.old)) }
{
    if to < from {
        return ended();
    }
    if buf.len() < to {
        return ended();
    }
    shift(buf, from, to);
    read_behind(stdin, buf, to - from)
}

// Reads on to the end of the input, so that whoever writes it is not cut off. The bytes go nowhere: nothing is lent, and nothing is answered.
pub fn drain()
    ensures { result ≡ tt }
{
    let mut space = io::buffer();
    let rest: &mut [u8] = &mut space;
    read_on(rest);
}

// The turns are counted, since a proved loop has to end.
fn read_on(rest: &mut [u8]) {
    for _ in 0..u64::MAX {
        if io::read_full(STDIN_FILENO, rest) == 0 {
            return;
        }
    }
}
