// The verdict on a pairing of two models.
ghost use Rattle.std.specs.Prelude.{◌≡◌, ◌<◌, ◌≤◌, length};
ghost use Rattle.judging.specs.Scratch.{Clean};
ghost use Rattle.transitions.specs.Verdict.{VerdictIs};

use crate::comparison::Comparison;
use crate::searching::wipe;
use models::systems::TransitionSystem;
use pairings::flipping::Flipped;
use pairings::standing::Pairing;
use transitions::verdicts::{Counterexample, Side, Verdict};

impl<L: TransitionSystem, R: TransitionSystem, P: Pairing> Comparison<'_, L, R, P> {
    fn judge_clean(&self, marks: &mut [u8], queue: &mut [u16]) -> Verdict
        requires wide { (L.TransitionSystem.meaning self.now.left.now).states ≤ length marks.old }
        requires high { (R.TransitionSystem.meaning self.now.right.now).states ≤ length marks.old }
        requires clean { Clean marks.old queue.old }
        ensures is { VerdictIs (L.TransitionSystem.meaning self.now.left.now) (R.TransitionSystem.meaning self.now.right.now) (P.Pairing.standing self.now.pairing.now) result }
        ensures clean { Clean marks.new queue.new }
    {
        let s = self.left.start();
        let t = self.right.start();
        if !self.pairing.stands(s, t) {
            return Err(Counterexample::StartMissing(s, t));
        }
        self.judge_rows(marks, queue)?;
        if let Some(place) = self.first_unrooted() {
            return Err(Counterexample::RootUnanswered(s, t, Side::Left, place));
        }
        let flipped = Flipped {
            pairing: self.pairing,
        };
        if let Some(place) = self.turned(&flipped).first_unrooted() {
            return Err(Counterexample::RootUnanswered(s, t, Side::Right, place));
        }
        Ok(())
    }

    // The verdict, in scratch of the right length, whatever it holds.
    pub(crate) fn judge_in(&self, marks: &mut [u8], queue: &mut [u16]) -> Verdict
        requires wide { (L.TransitionSystem.meaning self.now.left.now).states ≤ length marks.old }
        requires high { (R.TransitionSystem.meaning self.now.right.now).states ≤ length marks.old }
        requires long { length queue.old ≡ length marks.old }
        ensures is { VerdictIs (L.TransitionSystem.meaning self.now.left.now) (R.TransitionSystem.meaning self.now.right.now) (P.Pairing.standing self.now.pairing.now) result }
        ensures clean { Clean marks.new queue.new }
    {
        wipe(marks, queue);
        self.judge_clean(marks, queue)
    }
}
