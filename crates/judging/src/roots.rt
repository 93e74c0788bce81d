// The root: each step of one start is answered by one step of the other start.
ghost use Rattle.judging.specs.Parts.{Tells, Lowest};
ghost use Rattle.transitions.specs.Match.{Rooted};
ghost use Rattle.transitions.specs.Verdict.{AtRoot};

use crate::comparison::Comparison;
use crate::queries::lands;
use models::systems::TransitionSystem;
use pairings::standing::Pairing;
use transitions::steps::Step;

// Whether a step of the right start answers the step `want` of the left one.
fn answers_root<R: TransitionSystem, P: Pairing>(right: &R, pairing: &P, want: Step) -> bool
    ensures { Tells result (Rooted (R.meaning right.now) (P.standing pairing.now) want.action want.target) }
{
    let start = right.start();
    (0..right.width()).any(|place| lands(pairing, want, right.step(start, place)))
}

impl<L: TransitionSystem, R: TransitionSystem, P: Pairing> Comparison<'_, L, R, P> {
    // Whether the step of the left start at a place, if there is one, is answered.
    fn answers_root_place(&self, place: usize) -> bool
        ensures { Tells result (AtRoot (L.TransitionSystem.meaning self.now.left.now) (R.TransitionSystem.meaning self.now.right.now) (P.Pairing.standing self.now.pairing.now) (L.TransitionSystem.meaning self.now.left.now).start place) }
    {
        self.left
            .step(self.left.start(), place)
            .is_none_or(|want| answers_root(self.right, self.pairing, want))
    }

    // The lowest place of the left start whose step is not answered.
    pub(crate) fn first_unrooted(&self) -> Option<usize>
        ensures { Lowest (L.TransitionSystem.meaning self.now.left.now).width (AtRoot (L.TransitionSystem.meaning self.now.left.now) (R.TransitionSystem.meaning self.now.right.now) (P.Pairing.standing self.now.pairing.now) (L.TransitionSystem.meaning self.now.left.now).start) result }
    {
        (0..self.left.width()).find(|&place| !self.answers_root_place(place))
    }
}
