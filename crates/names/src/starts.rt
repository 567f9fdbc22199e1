// Whether a part begins with a word (the crate's `check_str`).
ghost use Rattle.std.specs.Prelude.{◌≡◌, [], ◌∷◌};
ghost use Rattle.names.specs.Starts.{begins_string, begins_raw};
ghost use Rattle.text.specs.Words.{starts_with};

// A word of two bytes.
pub fn starts_with2(s: &[u8], a: u8, b: u8) -> bool
    ensures { result ≡ starts_with (a ∷ b ∷ []) s.now }
{
    s.starts_with(&[a, b])
}

// A word of three bytes.
pub fn starts_with3(s: &[u8], a: u8, b: u8, c: u8) -> bool
    ensures { result ≡ starts_with (a ∷ b ∷ c ∷ []) s.now }
{
    s.starts_with(&[a, b, c])
}

// Whether a string, a byte string or a byte literal begins at the front.
pub fn begins_string(s: &[u8]) -> bool
    ensures { result ≡ begins_string s.now }
{
    if starts_with2(s, b'b', b'"') {
        return true;
    }
    if starts_with2(s, b'b', b'\'') {
        return true;
    }
    if starts_with3(s, b'b', b'r', b'#') {
        return true;
    }
    if starts_with3(s, b'b', b'r', b'"') {
        return true;
    }
    if starts_with2(s, b'r', b'"') {
        return true;
    }
    if starts_with3(s, b'r', b'#', b'"') {
        return true;
    }
    starts_with3(s, b'r', b'#', b'#')
}

// `r#`: a raw name, unless it begins a string.
pub fn begins_raw(s: &[u8]) -> bool
    ensures { result ≡ begins_raw s.now }
{
    starts_with2(s, b'r', b'#')
}
