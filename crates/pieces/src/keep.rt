// What is kept, to the front of the buffer.
ghost use Rattle.std.specs.Prelude.{◌≡◌, ◌++◌, ◌+◌, ◌≤◌, length, drop, take};

// The n bytes from a place on to the front; behind them the buffer stays as it was. What stands at the front already is not copied.
pub fn keep(buffer: &mut [u8], from: usize, n: usize)
    requires { from + n ≤ length buffer.old }
    ensures { buffer.new ≡ take n (drop from buffer.old) ++ drop n buffer.old }
{
    if from == 0 {
        return;
    }
    buffer.copy_within(from..from + n, 0);
}
