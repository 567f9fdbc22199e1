// `struct_kind`: the kind by its number.
ghost use Rattle.std.specs.Prelude.{◌≡◌};
ghost use Rattle.sarridok_c.specs.Packed.{packed};
ghost use Rattle.sarridok_c.specs.Words.{kind_word};
ghost use Rattle.sarridok_c.specs.Numbered.{kind_numbered};

// The type of the struct at a place, in two modes by their numbers. Its answer is the type's number.
#[unsafe(no_mangle)]
pub extern "C" fn sarridok_struct_kind(text: &[u8], place: usize, newtype: u32, tuple: u32) -> u64
    ensures { result ≡ packed kind_word (kind_numbered text.now place newtype tuple) }
{
    sarridok_c::sarridok_struct_kind(text, place, newtype, tuple)
}
