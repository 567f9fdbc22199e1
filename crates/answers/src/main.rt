// Cases in, one to a line, and answers out.
#![tactic(auto)]

mod dispatch;

use lines::{input, out};
use std::io::Stdin;

// What of the line buffer is read and not yet used, from..to, and whether the input has ended; the place in the output; whether the
// rest of a line too long is being passed over; whether there is more to do.
#[derive(Clone, Copy)]
struct State {
    from: usize,
    to: usize,
    ended: bool,
    at: usize,
    passing: bool,
    on: bool,
}

// A line's answer and its LF; none for the rest of a line too long.
fn answer(
    passing: bool,
    line: &[u8],
    text: &mut [u8],
    tape: &mut [u32],
    links: &mut [u32],
    numbers: &mut [u64],
    spare: &mut [u8],
    o: &mut [u8],
    at: usize,
) -> usize {
    if passing {
        return at;
    }
    let a = dispatch::answer(line, text, tape, links, numbers, spare, o, at);
    out::byte(o, a, b'\n')
}

// A line of n bytes stands there whole.
fn line(
    s: State,
    n: usize,
    buf: &[u8],
    text: &mut [u8],
    tape: &mut [u32],
    links: &mut [u32],
    numbers: &mut [u64],
    spare: &mut [u8],
    o: &mut [u8],
) -> State {
    let end = s.from.wrapping_add(n);
    let a = answer(
        s.passing,
        lines::part(buf, s.from, end),
        text,
        tape,
        links,
        numbers,
        spare,
        o,
        s.at,
    );
    State {
        from: end.wrapping_add(1),
        to: s.to,
        ended: s.ended,
        at: a,
        passing: false,
        on: true,
    }
}

// What is left behind the last LF is a line if it has any byte; then all is written.
fn last(
    s: State,
    rest: &[u8],
    text: &mut [u8],
    tape: &mut [u32],
    links: &mut [u32],
    numbers: &mut [u64],
    spare: &mut [u8],
    o: &mut [u8],
) -> State {
    let a = answer(
        s.passing || rest.is_empty(),
        rest,
        text,
        tape,
        links,
        numbers,
        spare,
        o,
        s.at,
    );
    State {
        from: 0,
        to: 0,
        ended: true,
        at: out::flush(&o[..], a),
        passing: false,
        on: false,
    }
}

// A line that the buffer does not hold is no case, and is passed over up to its LF.
fn too_long(
    s: State,
    text: &mut [u8],
    tape: &mut [u32],
    links: &mut [u32],
    numbers: &mut [u64],
    spare: &mut [u8],
    o: &mut [u8],
) -> State {
    State {
        from: 0,
        to: 0,
        ended: false,
        at: answer(
            s.passing,
            b"too long",
            text,
            tape,
            links,
            numbers,
            spare,
            o,
            s.at,
        ),
        passing: true,
        on: true,
    }
}

// What is answered is written before more is waited for.
fn more(stdin: Stdin, s: State, buf: &mut [u8], o: &[u8]) -> State {
    let at = out::flush(o, s.at);
    let i = input::more(stdin, buf, s.from, s.to);
    State {
        from: i.from,
        to: i.to,
        ended: i.ended,
        at,
        passing: s.passing,
        on: true,
    }
}

// One line, or one reading of the input.
fn turn(
    stdin: Stdin,
    s: State,
    buf: &mut [u8],
    text: &mut [u8],
    tape: &mut [u32],
    links: &mut [u32],
    numbers: &mut [u64],
    spare: &mut [u8],
    o: &mut [u8],
) -> State {
    let rest = lines::part(&buf[..], s.from, s.to);
    let left = rest.len();
    let n = lines::line_end(rest);
    if n < left {
        return line(s, n, &buf[..], text, tape, links, numbers, spare, o);
    }
    if s.ended {
        return last(s, rest, text, tape, links, numbers, spare, o);
    }
    if left == buf.len() {
        return too_long(s, text, tape, links, numbers, spare, o);
    }
    more(stdin, s, buf, &o[..])
}

// A proved loop has to end, and nothing says that the input does: the turns are counted up to a number that no run comes to.
fn run(
    stdin: Stdin,
    buf: &mut [u8],
    text: &mut [u8],
    tape: &mut [u32],
    links: &mut [u32],
    numbers: &mut [u64],
    spare: &mut [u8],
    o: &mut [u8],
) {
    let mut s = State {
        from: 0,
        to: 0,
        ended: false,
        at: 0,
        passing: false,
        on: true,
    };
    for _ in 0..u64::MAX {
        s = turn(stdin, s, buf, text, tape, links, numbers, spare, o);
        if !s.on {
            return;
        }
    }
}

// The arrays are lent as arrays first: then no proof computes their lengths.
fn lend(
    stdin: Stdin,
    buf: &mut [u8; 3200001],
    text: &mut [u8; 1600000],
    tape: &mut [u32; 327696],
    links: &mut [u32; 327696],
    numbers: &mut [u64; 65552],
    spare: &mut [u8; 65552],
    o: &mut [u8; 65536],
) {
    run(stdin, buf, text, tape, links, numbers, spare, o);
}

// A line of 3,200,000 bytes with its LF, the bytes that it can say in hex, a tape of 65,536 entries, buffers for what a text or a list can fill
// and a few numbers and bytes behind, and room for answers.
fn main(rt: HostRuntime) {
    let mut buf = [0u8; 3200001];
    let mut text = [0u8; 1600000];
    let mut tape = [0u32; 327696];
    let mut links = [0u32; 327696];
    let mut numbers = [0u64; 65552];
    let mut spare = [0u8; 65552];
    let mut o = [0u8; 65536];
    lend(
        rt.stdin(),
        &mut buf,
        &mut text,
        &mut tape,
        &mut links,
        &mut numbers,
        &mut spare,
        &mut o,
    );
}
