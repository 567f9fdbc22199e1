// `walk`: 0.
ghost use Rattle.std.specs.Prelude.{◌≡◌, length};
ghost use Rattle.sarridok.specs.Walked.{walk_of, links_after};
ghost use Rattle.sarridok_c.specs.Packed.{packed};
ghost use Rattle.sarridok_c.specs.Words.{done_word};

use crate::packing::done;

// Joins the brackets of a tape, at most `limit` of them open at once, and no field named again in its ( ). Its answer is 0; the links are written.
pub fn sarridok_walk(
    text: &[u8],
    tape: &[u32],
    count: usize,
    limit: usize,
    links: &mut [u32],
) -> u64
    ensures { (result ≡ packed done_word (walk_of text.now tape.now count limit (length links.old)))
        × (links.new ≡ links_after text.now tape.now count limit links.old) }
{
    done(sarridok::walk(text, tape, count, limit, links))
}
