// A model that is one of two kinds, so that models of different kinds can stand in one list.
ghost use Rattle.either.specs.Either.{either};
ghost use Rattle.models.specs.Either.{either_lawful};

use crate::systems::TransitionSystem;
use either::{Either, for_both};
use transitions::steps::Step;

impl<A: TransitionSystem, B: TransitionSystem> TransitionSystem for Either<A, B> {
    ghost meaning = { either A.TransitionSystem.meaning B.TransitionSystem.meaning };

    ghost lawful = { either_lawful A.TransitionSystem.lawful B.TransitionSystem.lawful };

    fn states(&self) -> usize {
        for_both!(self, m => m.states())
    }

    fn start(&self) -> usize {
        for_both!(self, m => m.start())
    }

    fn width(&self) -> usize {
        for_both!(self, m => m.width())
    }

    fn may_end(&self, state: usize) -> bool {
        for_both!(self, m => m.may_end(state))
    }

    fn step(&self, state: usize, place: usize) -> Option<Step> {
        for_both!(self, m => m.step(state, place))
    }
}
