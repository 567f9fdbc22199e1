// A line of the case format: a letter, a space and the letter's own words.

// The answer at a place of the output; text, tape and links are room for what a line says, links, numbers and spare for what a call writes.
pub fn answer(
    line: &[u8],
    text: &mut [u8],
    tape: &mut [u32],
    links: &mut [u32],
    numbers: &mut [u64],
    spare: &mut [u8],
    o: &mut [u8],
    at: usize,
) -> usize {
    let [letter, b' ', words @ ..] = line else {
        return show::bad(o, at);
    };
    match *letter {
        b'P' => edits::repair_any::answer(words, text, tape, links, o, at),
        b'p' => edits::repair_text::answer(words, text, tape, links, o, at),
        b'R' => tapes::read_any::answer(words, text, tape, o, at),
        b'r' => tapes::read_text::answer(words, text, tape, o, at),
        b'W' => tapes::walk_any::answer(words, text, tape, links, o, at),
        b'w' => tapes::walk_text::answer(words, text, tape, links, o, at),
        b'I' => lists::list_any::answer(words, text, tape, links, numbers, spare, o, at),
        b'n' => lists::list_text::answer(words, text, tape, links, numbers, spare, o, at),
        b'Q' => arrivals::arrive_any::answer(words, text, tape, o, at),
        b'q' => arrivals::arrive_text::answer(words, text, tape, links, o, at),
        b'C' => cases::any_c::answer(words, text, tape, spare, o, at),
        b'c' => cases::c::answer(words, text, spare, o, at),
        b'i' => cases::i::answer(words, text, o, at),
        b'k' => cases::k::answer(words, text, o, at),
        b's' => cases::s::answer(words, text, o, at),
        _ => show::bad(o, at),
    }
}
