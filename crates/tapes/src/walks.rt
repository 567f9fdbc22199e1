// A tape walked into marked links.
ghost use Rattle.std.specs.Prelude.{◌≡◌};
ghost use Rattle.lines.specs.Out.{put};
ghost use Rattle.tapes.specs.Walks.{links_left, walks_text, walk_in};

use lent::numbers;
use words::list;

// A walk that a line asks for: how many entries, how deep, into how many links.
#[derive(Clone, Copy)]
pub struct Asked {
    pub count: usize,
    pub limit: usize,
    pub room: usize,
}

// A refused walk may change no link, an accepted one none behind the count.
fn walked(text: &[u8], tape: &[u32], q: Asked, links: &mut [u32], o: &mut [u8], at: usize) -> usize
    ensures { ((o.new, result) ≡ put (o.old, at) (walks_text text.now tape.now q links.old))
        × (links.new ≡ links_left text.now tape.now q links.old) }
{
    numbers::mark(links);
    let answer = sarridok::walk(text, tape, q.count, q.limit, links);
    match answer {
        Ok(()) => {
            let a = show::of_walk::links(o, at, list::first(&links[..], q.count));
            show::clean(o, a, numbers::kept(&links[..], q.count))
        }
        Err(r) => {
            let a = show::refused(o, at, r);
            show::clean(o, a, numbers::kept(&links[..], 0))
        }
    }
}

// More links than there can be entries are no more than all that there are.
pub fn answer(
    text: &[u8],
    tape: &[u32],
    q: Asked,
    links: &mut [u32],
    o: &mut [u8],
    at: usize,
) -> usize
    ensures { ((o.new, result) ≡ put (o.old, at) (walk_in text.now tape.now q links.old).0)
        × (links.new ≡ (walk_in text.now tape.now q links.old).1) }
{
    let room = q.room;
    if room < links.len() {
        return walked(text, tape, q, &mut links[0..room], o, at);
    }
    walked(text, tape, q, links, o, at)
}
