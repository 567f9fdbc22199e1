// What the last byte of a part decides, where it is one behind which no earlier token looks.
ghost use Rattle.std.specs.Prelude.{◌≡◌, true, ◌≤◌, ◌<◌, ◌-◌, length, get_or};
ghost use Rattle.settled.specs.Bytes.{stops_byte};
ghost use Rattle.pieces.specs.inner.Scans.{scanned_of};
ghost use Rattle.pieces.specs.inner.Judges.{behind_of, gives_of, judged_of};

use crate::scan::scan;
use crate::verdict::Verdict;
use read::scanned::Scanned;
use settled::bytes::{is_closer, is_decider};
use settled::refused::settles;

// So many entries, if any.
fn gives(count: usize, end: usize) -> Verdict
    ensures { result ≡ gives_of count end }
{
    if count == 0 {
        return Verdict::Nothing;
    }
    Verdict::Gives(count, end)
}

// What the last byte of a part decides, where no entry ends with it.
fn behind_entries(part: &[u8], s: Scanned) -> Verdict
    requires { (0 < length part.now) × (s.end ≤ length part.now) }
    ensures { result ≡ behind_of part.now s }
{
    let last = part[part.len() - 1];
    let ending = s.ending;
    match ending {
        Ok(()) => {
            if is_decider(last) {
                return gives(s.count, s.end);
            }
            Verdict::Nothing
        }
        Err(refusal) => {
            let end = s.end;
            if settles(&part[end..]) {
                return Verdict::Shuts(s.count, s.end, refusal);
            }
            if is_decider(last) {
                return gives(s.count, s.end);
            }
            Verdict::Nothing
        }
    }
}

// What the last byte of a part decides, by what the part holds.
pub fn judge_scanned(part: &[u8], s: Scanned) -> Verdict
    requires { (0 < length part.now) × (stops_byte (get_or part.now (length part.now - 1) 0) ≡ true) × (s ≡ scanned_of part.now) }
    ensures { result ≡ judged_of part.now }
{
    let last = part[part.len() - 1];
    if s.end == part.len() {
        // The last entry ends with the byte.
        if is_closer(last) {
            return gives(s.count, s.end);
        }
        if is_decider(last) {
            return gives(s.count - 1, s.before);
        }
        return Verdict::Nothing;
    }
    behind_entries(part, s)
}

// What the last byte of a part decides.
pub fn judge(part: &[u8]) -> Verdict
    requires { (0 < length part.now) × (length part.now ≤ 65536) × (stops_byte (get_or part.now (length part.now - 1) 0) ≡ true) }
    ensures { result ≡ judged_of part.now }
{
    judge_scanned(part, scan(part))
}
