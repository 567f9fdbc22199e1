// The eight widths: an enum for the caller, a number inside.
ghost use Rattle.std.specs.Prelude.{◌≡◌, true, false, pos, neg_ℤ};
ghost use Rattle.integers.specs.Width.{code_of, width_at, limit_at, first_fit, widest};

// An integer's type, by the paper's numbers.
#[derive(Clone, Copy)]
pub enum Width {
    I8 = 1,
    I16,
    I32,
    I64,
    U8,
    U16,
    U32,
    U64,
}

// The paper's number of a width.
pub fn code_of(width: Width) -> u8
    ensures { result ≡ code_of width }
{
    width as u8
}

// The width of a number; the last also for any other number.
pub fn width_at(code: u8) -> Width
    ensures { result ≡ width_at code }
{
    if code == 1 {
        return Width::I8;
    }
    if code == 2 {
        return Width::I16;
    }
    if code == 3 {
        return Width::I32;
    }
    if code == 4 {
        return Width::I64;
    }
    if code == 5 {
        return Width::U8;
    }
    if code == 6 {
        return Width::U16;
    }
    if code == 7 {
        return Width::U32;
    }
    Width::U64
}

// The largest number of a width.
pub fn highest(code: u8) -> u64
    ensures { result ≡ limit_at code false }
{
    if code == 1 {
        return 127;
    }
    if code == 2 {
        return 32767;
    }
    if code == 3 {
        return 2147483647;
    }
    if code == 4 {
        return 9223372036854775807;
    }
    if code == 5 {
        return 255;
    }
    if code == 6 {
        return 65535;
    }
    if code == 7 {
        return 4294967295;
    }
    18446744073709551615
}

// The least number of a width.
pub fn lowest(code: u8) -> i64
    ensures { result ≡ neg_ℤ (pos (limit_at code true)) }
{
    if code == 1 {
        return -128;
    }
    if code == 2 {
        return -32768;
    }
    if code == 3 {
        return -2147483648;
    }
    if code == 4 {
        return -9223372036854775808;
    }
    0
}

// The width of 64 bits.
pub fn widest_of(minus: bool) -> u8
    ensures { result ≡ widest minus }
{
    if minus {
        return 4;
    }
    8
}

// The first width that holds a number, from its magnitude.
pub fn first_fit(minus: bool, magnitude: u64) -> Width
    ensures { result ≡ first_fit minus magnitude }
{
    if minus {
        return first_signed(magnitude);
    }
    if magnitude <= 255 {
        return Width::U8;
    }
    if magnitude <= 65535 {
        return Width::U16;
    }
    if magnitude <= 4294967295 {
        return Width::U32;
    }
    Width::U64
}

// The same behind a minus.
fn first_signed(magnitude: u64) -> Width
    ensures { result ≡ first_fit true magnitude }
{
    if magnitude <= 128 {
        return Width::I8;
    }
    if magnitude <= 32768 {
        return Width::I16;
    }
    if magnitude <= 2147483648 {
        return Width::I32;
    }
    Width::I64
}
