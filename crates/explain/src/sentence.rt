// Each refusal number of the paper as a sentence, and each reason of an invalid escape in words. One text with a line for each: a match of as many arms
// takes far longer to prove. 0 and 3 are given by no call, so their lines are empty.
ghost use Rattle.std.specs.Prelude.{◌≡◌, min};
ghost use Rattle.lines.specs.Out.{put};
ghost use Rattle.explain.specs.Sentences.{line_at, sentence_of, why_of};

use lines::{out, past, until};

// The line behind n others.
fn line(s: &[u8], n: usize) -> &[u8]
    ensures { result.now ≡ line_at n s.now }
{
    if n == 0 {
        return until(s, b'\n');
    }
    line(past(s, b'\n'), n - 1)
}

// Numbers above 30 have the last sentence.
fn known(number: u8) -> usize
    ensures { result ≡ min number 31 }
{
    if number < 31 { number as usize } else { 31 }
}

// The sentence of a number, from a place of the output on.
pub fn say(o: &mut [u8], at: usize, number: u8) -> usize
    ensures { (o.new, result) ≡ put (o.old, at) (sentence_of number) }
{
    let all = b"\n\
            the text is longer than 65,536 bytes\n\
            the text is not UTF-8 here\n\
            \n\
            a block comment is not closed\n\
            an unexpected character stands here or just before\n\
            the text ends where a character is needed\n\
            an integer is expected\n\
            an integer cannot begin with an underscore\n\
            this digit is not below the integer's base\n\
            the integer is out of bounds\n\
            a float is expected\n\
            an underscore is misplaced in the float\n\
            the escape is not valid\n\
            a char is expected\n\
            a byte literal is expected\n\
            a string is expected\n\
            the string is not closed\n\
            a byte string is expected\n\
            an attribute is expected\n\
            the end of the attribute is expected\n\
            the extension is not known\n\
            there is no room: the tape, the links or the buffer is too short\n\
            the cut, the lengths, the tape or the state are not in order\n\
            more brackets are open than the limit allows\n\
            this cannot stand here\n\
            the text ends before its value does\n\
            the entry or the suffix is of another kind\n\
            a place, entry number, cursor, limit, width or mode is unfit\n\
            the contents hold an escape or a line continuation\n\
            an entry is undecided after 4,096 bytes\n\
            a field of this name stands in the same brackets already\n";
    out::bytes(o, at, line(all, known(number)))
}

// Reasons above 7 have the last words.
fn known_reason(reason: u8) -> usize
    ensures { result ≡ min reason 8 }
{
    if reason < 8 { reason as usize } else { 8 }
}

// The words of a reason behind a colon; nothing for 0.
pub fn why(o: &mut [u8], at: usize, reason: u8) -> usize
    ensures { (o.new, result) ≡ put (o.old, at) (why_of reason) }
{
    if reason == 0 {
        return at;
    }
    let all = b"\n\
            digit not hex\n\
            unknown letter\n\
            not a byte-escaped character\n\
            missing open brace\n\
            no digits\n\
            no closing brace\n\
            not a character\n\
            Unicode in a byte literal\n";
    let a = out::bytes(o, at, b": ");
    out::bytes(o, a, line(all, known_reason(reason)))
}
