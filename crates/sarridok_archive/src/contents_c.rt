// `contents`: where the part begins and ends.
ghost use Rattle.std.specs.Prelude.{◌≡◌};
ghost use Rattle.sarridok.specs.Contents.{contents_of};
ghost use Rattle.sarridok_c.specs.Packed.{packed};
ghost use Rattle.sarridok_c.specs.Words.{span_word};

// Where the contents of a string entry begin and end, where nothing in them is escaped.
#[unsafe(no_mangle)]
pub extern "C" fn sarridok_contents(text: &[u8], tape: &[u32], count: usize, entry: usize) -> u64
    ensures { result ≡ packed span_word (contents_of text.now tape.now count entry) }
{
    sarridok_c::sarridok_contents(text, tape, count, entry)
}
