// Letters that are told without the table.
ghost use Rattle.std.specs.Prelude.{◌≡◌};
ghost use Rattle.xid.specs.Xid.{usual};

// Latin, Greek and Cyrillic, Han and Hangul; every Welsh letter is among them.
pub fn is_usual(c: u32) -> bool
    ensures { result ≡ usual c }
{
    if c <= 0x2c1 {
        if c < 0xc0 {
            return false;
        }
        if c == 0xd7 {
            return false;
        }
        return c != 0xf7;
    }
    if c <= 0x481 {
        if c < 0x3a3 {
            return false;
        }
        return c != 0x3f6;
    }
    if c < 0x4e00 {
        return false;
    }
    if c <= 0xa48c {
        return true;
    }
    if c < 0xac00 {
        return false;
    }
    c <= 0xd7a3
}
