// The conditions of the standing pairs, in order: by the left state, by the right state, and in each pair the left steps by place,
// the right steps, the left end and the right end.
ghost use Rattle.std.specs.Prelude.{◌≡◌, ◌<◌, ◌≤◌, true, length};
ghost use Rattle.judging.specs.Scratch.{Clean};
ghost use Rattle.judging.specs.Parts.{Tells, Lowest, PairJudged, RowJudged, RowsJudged};
ghost use Rattle.transitions.specs.Match.{flip};
ghost use Rattle.transitions.specs.Verdict.{AtPlace, AtEnd};

use crate::comparison::Comparison;
use models::systems::TransitionSystem;
use pairings::flipping::Flipped;
use pairings::standing::Pairing;
use transitions::verdicts::{Counterexample, Side, Verdict};

impl<L: TransitionSystem, R: TransitionSystem, P: Pairing> Comparison<'_, L, R, P> {
    // The lowest place of t whose step s does not answer.
    fn right_unanswered(
        &self,
        s: usize,
        t: usize,
        marks: &mut [u8],
        queue: &mut [u16],
    ) -> Option<usize>
        requires state { s < (L.TransitionSystem.meaning self.now.left.now).states }
        requires fit { (L.TransitionSystem.meaning self.now.left.now).states ≤ length marks.old }
        requires clean { Clean marks.old queue.old }
        ensures lowest { Lowest (R.TransitionSystem.meaning self.now.right.now).width (AtPlace (R.TransitionSystem.meaning self.now.right.now) (L.TransitionSystem.meaning self.now.left.now) (flip (P.Pairing.standing self.now.pairing.now)) t s) result }
        ensures clean { Clean marks.new queue.new }
    {
        let flipped = Flipped {
            pairing: self.pairing,
        };
        self.turned(&flipped).first_unanswered(t, s, marks, queue)
    }

    // Whether s answers the end of t, if t may end.
    fn answers_right_end(&self, s: usize, t: usize, marks: &mut [u8], queue: &mut [u16]) -> bool
        requires state { s < (L.TransitionSystem.meaning self.now.left.now).states }
        requires fit { (L.TransitionSystem.meaning self.now.left.now).states ≤ length marks.old }
        requires clean { Clean marks.old queue.old }
        ensures tells { Tells result (AtEnd (R.TransitionSystem.meaning self.now.right.now) (L.TransitionSystem.meaning self.now.left.now) (flip (P.Pairing.standing self.now.pairing.now)) t s) }
        ensures clean { Clean marks.new queue.new }
    {
        let flipped = Flipped {
            pairing: self.pairing,
        };
        self.turned(&flipped).answers_end(t, s, marks, queue)
    }

    // The first broken condition of a standing pair.
    fn judge_pair(&self, s: usize, t: usize, marks: &mut [u8], queue: &mut [u16]) -> Verdict
        requires leftmost { s < (L.TransitionSystem.meaning self.now.left.now).states }
        requires rightmost { t < (R.TransitionSystem.meaning self.now.right.now).states }
        requires stands { P.Pairing.standing self.now.pairing.now s t ≡ true }
        requires wide { (L.TransitionSystem.meaning self.now.left.now).states ≤ length marks.old }
        requires high { (R.TransitionSystem.meaning self.now.right.now).states ≤ length marks.old }
        requires clean { Clean marks.old queue.old }
        ensures judged { PairJudged (L.TransitionSystem.meaning self.now.left.now) (R.TransitionSystem.meaning self.now.right.now) (P.Pairing.standing self.now.pairing.now) s t result }
        ensures clean { Clean marks.new queue.new }
    {
        if let Some(place) = self.first_unanswered(s, t, marks, queue) {
            return Err(Counterexample::StepUnanswered(s, t, Side::Left, place));
        }
        if let Some(place) = self.right_unanswered(s, t, marks, queue) {
            return Err(Counterexample::StepUnanswered(s, t, Side::Right, place));
        }
        if !self.answers_end(s, t, marks, queue) {
            return Err(Counterexample::EndUnanswered(s, t, Side::Left));
        }
        if !self.answers_right_end(s, t, marks, queue) {
            return Err(Counterexample::EndUnanswered(s, t, Side::Right));
        }
        Ok(())
    }

    // The first broken condition of the standing pairs of s.
    fn judge_row(&self, s: usize, marks: &mut [u8], queue: &mut [u16]) -> Verdict
        requires leftmost { s < (L.TransitionSystem.meaning self.now.left.now).states }
        requires wide { (L.TransitionSystem.meaning self.now.left.now).states ≤ length marks.old }
        requires high { (R.TransitionSystem.meaning self.now.right.now).states ≤ length marks.old }
        requires clean { Clean marks.old queue.old }
        ensures judged { RowJudged (L.TransitionSystem.meaning self.now.left.now) (R.TransitionSystem.meaning self.now.right.now) (P.Pairing.standing self.now.pairing.now) s result }
        ensures clean { Clean marks.new queue.new }
    {
        let below = self.right.states();
        let mut from = 0;
        while let Some(t) = self.pairing.next_standing(s, from, below) {
            self.judge_pair(s, t, marks, queue)?;
            from = t + 1;
        }
        Ok(())
    }

    // The first broken condition of all standing pairs.
    pub(crate) fn judge_rows(&self, marks: &mut [u8], queue: &mut [u16]) -> Verdict
        requires wide { (L.TransitionSystem.meaning self.now.left.now).states ≤ length marks.old }
        requires high { (R.TransitionSystem.meaning self.now.right.now).states ≤ length marks.old }
        requires clean { Clean marks.old queue.old }
        ensures judged { RowsJudged (L.TransitionSystem.meaning self.now.left.now) (R.TransitionSystem.meaning self.now.right.now) (P.Pairing.standing self.now.pairing.now) result }
        ensures clean { Clean marks.new queue.new }
    {
        for s in 0..self.left.states() {
            self.judge_row(s, marks, queue)?;
        }
        Ok(())
    }
}
