// Whether a right state answers the steps and the end of a left one.
ghost use Rattle.std.specs.Prelude.{◌≡◌, ◌<◌, ◌≤◌, ◌&&◌, length, ◌==◌};
ghost use Rattle.judging.specs.Scratch.{Clean};
ghost use Rattle.judging.specs.Parts.{Tells, Lowest};
ghost use Rattle.transitions.specs.Match.{Answered};
ghost use Rattle.transitions.specs.Verdict.{AtPlace, AtEnd};

use crate::comparison::Comparison;
use crate::queries::{ToEnd, ToStep};
use crate::searching::search;
use models::systems::TransitionSystem;
use pairings::standing::Pairing;

impl<'r, 'p, R: TransitionSystem, P: Pairing> ToStep<'r, 'p, R, P> {
    // Whether t may stay: the step is silent and its target stands with t.
    pub(crate) fn may_stay(&self, t: usize) -> bool
        ensures { result ≡ (self.now.want.action == 0 && P.Pairing.standing self.now.pairing.now self.now.want.target t) }
    {
        self.want.action == 0 && self.pairing.stands(self.want.target as usize, t)
    }

    // Whether t answers the step.
    fn is_answered(&self, t: usize, marks: &mut [u8], queue: &mut [u16]) -> bool
        requires state { t < (R.TransitionSystem.meaning self.now.right.now).states }
        requires fit { (R.TransitionSystem.meaning self.now.right.now).states ≤ length marks.old }
        requires clean { Clean marks.old queue.old }
        ensures tells { Tells result (Answered (R.TransitionSystem.meaning self.now.right.now) (P.Pairing.standing self.now.pairing.now) self.now.s t self.now.want.action self.now.want.target) }
        ensures clean { Clean marks.new queue.new }
    {
        if self.may_stay(t) {
            return true;
        }
        search(self.right, self, t, marks, queue).is_some()
    }
}

impl<L: TransitionSystem, R: TransitionSystem, P: Pairing> Comparison<'_, L, R, P> {
    // Whether t answers the step of s at a place, if there is one.
    fn answers_place(
        &self,
        s: usize,
        t: usize,
        place: usize,
        marks: &mut [u8],
        queue: &mut [u16],
    ) -> bool
        requires state { t < (R.TransitionSystem.meaning self.now.right.now).states }
        requires fit { (R.TransitionSystem.meaning self.now.right.now).states ≤ length marks.old }
        requires clean { Clean marks.old queue.old }
        ensures tells { Tells result (AtPlace (L.TransitionSystem.meaning self.now.left.now) (R.TransitionSystem.meaning self.now.right.now) (P.Pairing.standing self.now.pairing.now) s t place) }
        ensures clean { Clean marks.new queue.new }
    {
        let Some(want) = self.left.step(s, place) else {
            return true;
        };
        let query = ToStep {
            right: self.right,
            pairing: self.pairing,
            s,
            want,
        };
        query.is_answered(t, marks, queue)
    }

    // The lowest place of s whose step t does not answer.
    pub(crate) fn first_unanswered(
        &self,
        s: usize,
        t: usize,
        marks: &mut [u8],
        queue: &mut [u16],
    ) -> Option<usize>
        requires state { t < (R.TransitionSystem.meaning self.now.right.now).states }
        requires fit { (R.TransitionSystem.meaning self.now.right.now).states ≤ length marks.old }
        requires clean { Clean marks.old queue.old }
        ensures lowest { Lowest (L.TransitionSystem.meaning self.now.left.now).width (AtPlace (L.TransitionSystem.meaning self.now.left.now) (R.TransitionSystem.meaning self.now.right.now) (P.Pairing.standing self.now.pairing.now) s t) result }
        ensures clean { Clean marks.new queue.new }
    {
        // Kept: a loop, here and where the judge goes over states: of a closure that writes the scratch nothing is known of what it answered.
        for place in 0..self.left.width() {
            if !self.answers_place(s, t, place, marks, queue) {
                return Some(place);
            }
        }
        None
    }

    // Whether t answers the end of s, if s may end.
    pub(crate) fn answers_end(
        &self,
        s: usize,
        t: usize,
        marks: &mut [u8],
        queue: &mut [u16],
    ) -> bool
        requires state { t < (R.TransitionSystem.meaning self.now.right.now).states }
        requires fit { (R.TransitionSystem.meaning self.now.right.now).states ≤ length marks.old }
        requires clean { Clean marks.old queue.old }
        ensures tells { Tells result (AtEnd (L.TransitionSystem.meaning self.now.left.now) (R.TransitionSystem.meaning self.now.right.now) (P.Pairing.standing self.now.pairing.now) s t) }
        ensures clean { Clean marks.new queue.new }
    {
        if !self.left.may_end(s) {
            return true;
        }
        let query = ToEnd {
            right: self.right,
            pairing: self.pairing,
            s,
        };
        search(self.right, &query, t, marks, queue).is_some()
    }
}
