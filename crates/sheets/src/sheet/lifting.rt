// A sheet's bytes with one pair out.
ghost use Rattle.std.specs.Prelude.{◌≡◌, ◌<◌, true, length, slice_set};
ghost use Rattle.judging.specs.Judged.{Judged, refusal};
ghost use Rattle.sheets.specs.Calls.{in_range, removing};
ghost use Rattle.sheets.specs.Sheets.{stood, in_force};

use crate::sheet::standing::{next_in, stands_in};
use crate::size::Size;
use judging::calls::judge;
use models::systems::TransitionSystem;
use pairings::faults::Fault;
use pairings::standing::Pairing;
use transitions::verdicts::Verdict;

// One byte is another while this lives, and at its end what it was.
struct Lifted<'a> {
    bytes: &'a mut [u8],
    size: Size,
    at: usize,
    was: u8,
}

impl Drop for Lifted<'_> {
    fn drop(self)
        requires { self.at < length self.bytes.now }
        ensures { self.exit.0.now ≡ slice_set self.entry.bytes.now self.entry.at self.entry.was }
    {
        self.bytes[self.at] = self.was;
        let Lifted {
            bytes: _,
            size: _,
            at: _,
            was: _,
        } = self;
    }
}

impl Pairing for Lifted<'_> {
    ghost standing = { λ v. stood v.size v.bytes.now };

    fn stands(&self, s: usize, t: usize) -> bool {
        stands_in(self.bytes, self.size, s, t)
    }

    fn next_standing(&self, s: usize, from: usize, below: usize) -> Option<usize> {
        next_in(self.bytes, self.size, s, from, below)
    }
}

// The judgement with another byte in the place of one.
fn judge_with<L: TransitionSystem, R: TransitionSystem>(
    left: &L,
    right: &R,
    bytes: &mut [u8],
    size: Size,
    at: usize,
    byte: u8,
    marks: &mut [u8],
    queue: &mut [u16],
) -> Result<Verdict, Fault>
    requires { at < length bytes.old }
    ensures judged { Judged (refusal (L.TransitionSystem.meaning left.now) (R.TransitionSystem.meaning right.now) (record { marks = marks.entry.now; queue = queue.old })) (L.TransitionSystem.meaning left.now) (R.TransitionSystem.meaning right.now) (stood size (slice_set bytes.old at byte)) (record { marks = marks.entry.now; queue = queue.old }) (record { marks = marks.exit.now; queue = queue.new }) result }
    ensures same { bytes.new ≡ bytes.old }
{
    let was = bytes[at];
    bytes[at] = byte;
    let guard = Lifted {
        bytes,
        size,
        at,
        was,
    };
    judge(left, right, &guard, marks, queue)
}

// The judgement with the pair (s, t) out.
pub(crate) fn judge_without<L: TransitionSystem, R: TransitionSystem>(
    left: &L,
    right: &R,
    bytes: &mut [u8],
    size: Size,
    s: usize,
    t: usize,
    marks: &mut [u8],
    queue: &mut [u16],
) -> Result<Verdict, Fault>
    requires { in_range (in_force size (length bytes.old) size.rows) (in_force size (length bytes.old) size.columns) s t ≡ true }
    ensures judged { Judged (refusal (L.TransitionSystem.meaning left.now) (R.TransitionSystem.meaning right.now) (record { marks = marks.entry.now; queue = queue.old })) (L.TransitionSystem.meaning left.now) (R.TransitionSystem.meaning right.now) (removing (stood size bytes.old) s t) (record { marks = marks.entry.now; queue = queue.old }) (record { marks = marks.exit.now; queue = queue.new }) result }
    ensures same { bytes.new ≡ bytes.old }
{
    let columns = size.within(bytes.len()).columns as usize;
    let i = s * columns + t;
    let byte = bytes[i / 8] & (255 - (1u8 << (i % 8)));
    judge_with(left, right, bytes, size, i / 8, byte, marks, queue)
}
