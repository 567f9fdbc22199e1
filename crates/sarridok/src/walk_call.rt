// One link per entry of a tape.
ghost use Rattle.std.specs.Prelude.{◌≡◌, length};
ghost use Rattle.sarridok.specs.Walked.{walk_of, links_after};

use fields::names::raws_fit;
use rows::order::in_order;
use rows::row::room;
use text::Refusal;
use text::judge::judge as judge_text;
use walk::joining::join;
use walk::judging::judge;

// A bracket links to its partner, any other entry to itself; refused, it writes nothing. The tape need not be the text's.
pub fn walk(
    text: &[u8],
    tape: &[u32],
    count: usize,
    limit: usize,
    links: &mut [u32],
) -> Result<(), Refusal>
    ensures answer { result ≡ walk_of text.now tape.now count limit (length links.old) }
    ensures left { links.new ≡ links_after text.now tape.now count limit links.old }
{
    judge_text(text)?;
    if 128 < limit {
        return Err(Refusal::unfit());
    }
    if room(tape) < count {
        return Err(Refusal::not_in_order());
    }
    if !in_order(tape, count, text.len()) {
        return Err(Refusal::not_in_order());
    }
    if !raws_fit(text, tape, count) {
        return Err(Refusal::not_in_order());
    }
    if links.len() < count {
        return Err(Refusal::no_room());
    }
    judge(text, tape, count, limit)?;
    join(tape, count, links);
    Ok(())
}
