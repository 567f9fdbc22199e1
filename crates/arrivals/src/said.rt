// What a call says: how many entries, these, and the refusal behind them.
ghost use Rattle.std.specs.Prelude.{◌*◌, min, ◌≡◌, length};
ghost use Rattle.lines.specs.Out.{put};
ghost use Rattle.rows.specs.Rows.{room_of, width};
ghost use Rattle.arrivals.specs.inner.Says.{counted_text, stopped_text, ended_text, without_state, count_of, is_clean};

use lent::numbers;
use lines::out;
use pieces::state::{Arrived, Ended};
use rows::row;
use text::Refusal;

// So many entries of the tape.
fn counted(o: &mut [u8], at: usize, n: usize, tape: &[u32]) -> usize
    ensures { (o.new, result) ≡ put (o.old, at) (counted_text n tape.now) }
{
    let a = out::number(o, at, n as u64);
    show::of_read::entries(o, a, tape, n, b';')
}

// The same, and a refusal behind them.
fn stopped(o: &mut [u8], at: usize, n: usize, r: Refusal, tape: &[u32]) -> usize
    ensures { (o.new, result) ≡ put (o.old, at) (stopped_text n r tape.now) }
{
    let a = counted(o, at, n, tape);
    let b = out::byte(o, a, b';');
    show::refused(o, b, r)
}

// What the end of the text comes to.
pub fn ended(o: &mut [u8], at: usize, r: Ended, tape: &[u32]) -> usize
    ensures { (o.new, result) ≡ put (o.old, at) (ended_text r tape.now) }
{
    match r {
        Ended::Given(n) => counted(o, at, n, tape),
        Ended::Stopped(n, f) => stopped(o, at, n, f, tape),
        Ended::Refused(f) => show::refused(o, at, f),
    }
}

// What a piece comes to, without the state behind it: the same is said of it.
fn without_state(r: Arrived) -> Ended
    ensures { result ≡ without_state r }
{
    match r {
        Arrived::Given(n, _) => Ended::Given(n),
        Arrived::Stopped(n, f, _) => Ended::Stopped(n, f),
        Arrived::Refused(f) => Ended::Refused(f),
    }
}

// What a piece comes to.
pub fn arrived(o: &mut [u8], at: usize, r: Arrived, tape: &[u32]) -> usize
    ensures { (o.new, result) ≡ put (o.old, at) (ended_text (without_state r) tape.now) }
{
    ended(o, at, without_state(r), tape)
}

// How many entries were given.
fn count(r: Ended) -> usize
    ensures { result ≡ count_of r }
{
    match r {
        Ended::Given(n) => n,
        Ended::Stopped(n, _) => n,
        Ended::Refused(_) => 0,
    }
}

// Where the numbers of so many entries end.
fn written(n: usize, tape: &[u32]) -> usize
    ensures { result ≡ width * min n (room_of (length tape.now)) }
{
    row::begins(lines::least(n, row::room(tape)))
}

// Whether a call over a marked tape left all marks behind its entries.
pub fn ended_clean(r: Ended, tape: &[u32]) -> bool
    ensures { result ≡ is_clean r tape.now }
{
    numbers::kept(tape, written(count(r), tape))
}

// The same of a piece.
pub fn arrived_clean(r: Arrived, tape: &[u32]) -> bool
    ensures { result ≡ is_clean (without_state r) tape.now }
{
    ended_clean(without_state(r), tape)
}
