// The reply of one state of a standing pair to a step of the other.
ghost use Rattle.std.specs.Prelude.{◌≡◌, ◌<◌, ◌≤◌, length};
ghost use Rattle.judging.specs.Scratch.{Clean};
ghost use Rattle.judging.specs.Judged.{Checks};
ghost use Rattle.judging.specs.Replies.{unpaired, Names, Asks, Replied, reply_refusal};
ghost use Rattle.transitions.specs.Reply.{ReplyIs};

use crate::calls::check_ready;
use crate::comparison::Comparison;
use crate::queries::ToStep;
use crate::searching::{search, wipe};
use models::systems::TransitionSystem;
use pairings::faults::Fault;
use pairings::flipping::Flipped;
use pairings::standing::Pairing;
use transitions::replies::Reply;
use transitions::steps::Step;
use transitions::verdicts::Side;

// The step that a reply is asked for: at a place of s, where the side is 0, or of t, where it is 1. Callers may hand over any
// number as the side.
#[derive(Clone, Copy, Debug, PartialEq, Eq)]
pub struct Ask {
    pub side: usize,
    pub s: usize,
    pub t: usize,
    pub place: usize,
}

// The side of a number.
fn side_of(number: usize) -> Result<Side, Fault>
    ensures { Names number result }
{
    match number {
        0 => Ok(Side::Left),
        1 => Ok(Side::Right),
        _ => Err(Fault::NoSide),
    }
}

impl<'r, 'p, R: TransitionSystem, P: Pairing> ToStep<'r, 'p, R, P> {
    // The reply of t to the step.
    fn reply(&self, t: usize, marks: &mut [u8], queue: &mut [u16]) -> Option<Reply>
        requires state { t < (R.TransitionSystem.meaning self.now.right.now).states }
        requires fit { (R.TransitionSystem.meaning self.now.right.now).states ≤ length marks.old }
        requires clean { Clean marks.old queue.old }
        ensures is { ReplyIs (R.TransitionSystem.meaning self.now.right.now) (P.Pairing.standing self.now.pairing.now) self.now.s t self.now.want result }
        ensures clean { Clean marks.new queue.new }
    {
        if self.may_stay(t) {
            return Some(Reply::Stays);
        }
        let found = search(self.right, self, t, marks, queue)?;
        Some(Reply::Moves(found.state, found.place))
    }

    // The reply, in scratch of the right length, whatever it holds.
    fn reply_in(&self, t: usize, marks: &mut [u8], queue: &mut [u16]) -> Option<Reply>
        requires state { t < (R.TransitionSystem.meaning self.now.right.now).states }
        requires fit { (R.TransitionSystem.meaning self.now.right.now).states ≤ length marks.old }
        requires long { length queue.old ≡ length marks.old }
        ensures is { ReplyIs (R.TransitionSystem.meaning self.now.right.now) (P.Pairing.standing self.now.pairing.now) self.now.s t self.now.want result }
        ensures clean { Clean marks.new queue.new }
    {
        wipe(marks, queue);
        self.reply(t, marks, queue)
    }
}

impl<L: TransitionSystem, R: TransitionSystem, P: Pairing> Comparison<'_, L, R, P> {
    // Refuses a pair that cannot be asked about.
    fn check_pair(&self, s: usize, t: usize) -> Result<(), Fault>
        ensures { Checks (unpaired (L.TransitionSystem.meaning self.now.left.now).states (R.TransitionSystem.meaning self.now.right.now).states (P.Pairing.standing self.now.pairing.now) s t) result }
    {
        if s >= self.left.states() || t >= self.right.states() {
            return Err(Fault::NoState);
        }
        if !self.pairing.stands(s, t) {
            return Err(Fault::Missing);
        }
        Ok(())
    }

    // The step that is asked for and its side, or why there is none.
    fn asked(&self, ask: Ask) -> Result<(Side, Step), Fault>
        ensures { Asks (L.TransitionSystem.meaning self.now.left.now) (R.TransitionSystem.meaning self.now.right.now) (P.Pairing.standing self.now.pairing.now) ask result }
    {
        let side = side_of(ask.side)?;
        self.check_pair(ask.s, ask.t)?;
        let step = match side {
            Side::Left => self.left.step(ask.s, ask.place),
            Side::Right => self.right.step(ask.t, ask.place),
        };
        let want = step.ok_or(Fault::NoStep)?;
        Ok((side, want))
    }
}

// The reply to a step. It stays, if the step is silent and its target stands with the other state. Else it moves by silent steps
// to a state that stands with the asking one, and names the lowest place there that does the same and leads to a standing pair.
// There is none only where there is no answer. Refused with the first that holds: a model is empty, the marks or the queue are
// shorter than the larger size, the side is neither 0 nor 1, a state is not below its size, the pair does not stand, the place
// holds no step. After a reply the first entries of both, as many as the larger size, are 0.
pub fn reply<L: TransitionSystem, R: TransitionSystem, P: Pairing>(
    left: &L,
    right: &R,
    pairing: &P,
    ask: Ask,
    marks: &mut [u8],
    queue: &mut [u16],
) -> Result<Option<Reply>, Fault>
    ensures { Replied (reply_refusal (L.TransitionSystem.meaning left.now) (R.TransitionSystem.meaning right.now) (P.standing pairing.now) (record { marks = marks.entry.now; queue = queue.old }) ask) (L.TransitionSystem.meaning left.now) (R.TransitionSystem.meaning right.now) (P.standing pairing.now) ask (record { marks = marks.entry.now; queue = queue.old }) (record { marks = marks.exit.now; queue = queue.new }) result }
{
    check_ready(left, right, marks, queue)?;
    let comparison = Comparison {
        left,
        right,
        pairing,
    };
    let (side, want) = comparison.asked(ask)?;
    let n = left.states().max(right.states());
    match side {
        Side::Left => {
            let query = ToStep {
                right,
                pairing,
                s: ask.s,
                want,
            };
            Ok(query.reply_in(ask.t, &mut marks[..n], &mut queue[..n]))
        }
        Side::Right => {
            let flipped = Flipped { pairing };
            let query = ToStep {
                right: left,
                pairing: &flipped,
                s: ask.t,
                want,
            };
            Ok(query.reply_in(ask.s, &mut marks[..n], &mut queue[..n]))
        }
    }
}
