// Whether a byte is quiet. The bytes below 0x3b stand apart, so that they compile to the bits of one word and not to a table of jumps.
ghost use Rattle.std.specs.Prelude.{[], ◌∷◌, ◌≡◌};
ghost use Rattle.reading.specs.Owed.{quiet_byte};
ghost use Rattle.text.specs.Classes.{one_of};

// Space, tab, LF, CR, comma, colon or a round bracket.
fn is_low(byte: u8) -> bool
    ensures { result ≡ one_of (0x20 ∷ 0x09 ∷ 0x0a ∷ 0x0d ∷ 0x2c ∷ 0x3a ∷ 0x28 ∷ 0x29 ∷ []) byte }
{
    if byte == 0x20 {
        return true;
    }
    if byte == 0x09 {
        return true;
    }
    if byte == 0x0a {
        return true;
    }
    if byte == 0x0d {
        return true;
    }
    if byte == 0x2c {
        return true;
    }
    if byte == 0x3a {
        return true;
    }
    if byte == 0x28 {
        return true;
    }
    if byte == 0x29 {
        return true;
    }
    false
}

// A square or a curly bracket.
fn is_high(byte: u8) -> bool
    ensures { result ≡ one_of (0x5b ∷ 0x5d ∷ 0x7b ∷ 0x7d ∷ []) byte }
{
    if byte == 0x5b {
        return true;
    }
    if byte == 0x5d {
        return true;
    }
    if byte == 0x7b {
        return true;
    }
    if byte == 0x7d {
        return true;
    }
    false
}

// Space, tab, LF, CR, comma, colon or any of the six brackets.
pub fn is_quiet(byte: u8) -> bool
    ensures { result ≡ quiet_byte byte }
{
    if byte < 0x3b {
        return is_low(byte);
    }
    is_high(byte)
}
