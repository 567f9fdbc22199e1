// The extensions, by name and as numbers that are added.
ghost use Rattle.std.specs.Prelude.{◌≡◌, ◌<◌};
ghost use Rattle.attributes.specs.Extensions.{is_word, extension_of, adds_of, added_to};

use integers::ident::check_str;

// What `enable` takes.
#[derive(Clone, Copy)]
pub enum Extension {
    UnwrapNewtypes,
    ImplicitSome,
    UnwrapVariantNewtypes,
    ExplicitStructNames,
}

// The name of n bytes at the front is the word.
fn is_word(t: &[u8], n: usize, word: &[u8]) -> bool
    ensures { result ≡ is_word word.now t.now n }
{
    if n != word.len() {
        return false;
    }
    check_str(t, word)
}

// The extension with the name of n bytes at the front.
pub fn from_ident(t: &[u8], n: usize) -> Option<Extension>
    ensures { result ≡ extension_of t.now n }
{
    if is_word(t, n, b"unwrap_newtypes") {
        return Some(Extension::UnwrapNewtypes);
    }
    if is_word(t, n, b"implicit_some") {
        return Some(Extension::ImplicitSome);
    }
    if is_word(t, n, b"unwrap_variant_newtypes") {
        return Some(Extension::UnwrapVariantNewtypes);
    }
    if is_word(t, n, b"explicit_struct_names") {
        return Some(Extension::ExplicitStructNames);
    }
    None
}

// What an extension adds to the sum.
fn value(e: Extension) -> u32
    ensures { result ≡ adds_of e }
{
    match e {
        Extension::UnwrapNewtypes => 1,
        Extension::ImplicitSome => 2,
        Extension::UnwrapVariantNewtypes => 4,
        Extension::ExplicitStructNames => 8,
    }
}

// The sum with the extension, which counts once.
pub fn add(e: Extension, extensions: u32) -> u32
    requires { extensions < 16 }
    ensures { result ≡ added_to e extensions }
{
    let bit = value(e);
    if extensions / bit % 2 == 1 {
        return extensions;
    }
    let sum = extensions + bit;
    sum
}
