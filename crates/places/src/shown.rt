// Characters that a terminal shows in one cell of their own.
ghost use Rattle.std.specs.Prelude.{◌≡◌};
ghost use Rattle.text.specs.Classes.{within};
ghost use Rattle.places.specs.Shown.{control, hidden, shown};

// One of lo to hi.
fn is_between(lo: u32, hi: u32, c: u32) -> bool
    ensures { result ≡ within lo hi c }
{
    (lo..=hi).contains(&c)
}

fn is_control(c: u32) -> bool
    ensures { result ≡ control c }
{
    if c <= 0x1F {
        return true;
    }
    is_between(0x7F, 0x9F, c)
}

// No width of its own, or one that turns the direction of the line.
fn is_hidden(c: u32) -> bool
    ensures { result ≡ hidden c }
{
    if is_between(0x200B, 0x200F, c) {
        return true;
    }
    if is_between(0x2028, 0x202E, c) {
        return true;
    }
    if is_between(0x2060, 0x206F, c) {
        return true;
    }
    c == 0xFEFF
}

// Of the controls only the tab.
pub fn is_shown(c: u32) -> bool
    ensures { result ≡ shown c }
{
    if is_control(c) {
        return c == 0x09;
    }
    !is_hidden(c)
}
