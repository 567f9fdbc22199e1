// The kind of a mark, as `mark_kind` of crate tokens tells it, by ranges: most bytes then take a few tests and no table of jumps.
ghost use Rattle.std.specs.Prelude.{◌≡◌, ◌≤◌, ◌<◌};
ghost use Rattle.tokens.specs.Shapes.{mark_kind};

use rows::kinds;

// Round brackets, comma and colon.
fn low_mark(a: u8) -> u32
    requires { a < 0x3b }
    ensures { result ≡ mark_kind a }
{
    if 0x39 < a {
        return kinds::COLON;
    }
    if 0x2c < a {
        return 0;
    }
    if 0x2b < a {
        return kinds::COMMA;
    }
    if 0x29 < a {
        return 0;
    }
    if 0x28 < a {
        return kinds::CLOSE_PAREN;
    }
    if 0x27 < a {
        return kinds::OPEN_PAREN;
    }
    0
}

// Square and curly brackets.
fn high_mark(a: u8) -> u32
    requires { 0x3b ≤ a }
    ensures { result ≡ mark_kind a }
{
    if a < 0x5e {
        if a == b'[' {
            return kinds::OPEN_BRACKET;
        }
        if a == b']' {
            return kinds::CLOSE_BRACKET;
        }
        return 0;
    }
    if a == b'{' {
        return kinds::OPEN_BRACE;
    }
    if a == b'}' {
        return kinds::CLOSE_BRACE;
    }
    0
}

// 0 for any other byte.
pub fn mark(a: u8) -> u32
    ensures { result ≡ mark_kind a }
{
    if a < 0x3b {
        return low_mark(a);
    }
    high_mark(a)
}
