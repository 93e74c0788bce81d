// A model that may be missing. A missing one answers as the empty model does.
ghost use Rattle.models.specs.Optional.{of_option, option_lawful};

use crate::systems::TransitionSystem;
use transitions::steps::Step;

impl<M: TransitionSystem> TransitionSystem for Option<M> {
    ghost meaning = { of_option M.TransitionSystem.meaning };

    ghost lawful = { option_lawful M.TransitionSystem.lawful };

    fn states(&self) -> usize {
        self.as_ref().map_or(0, |m| m.states())
    }

    fn start(&self) -> usize {
        self.as_ref().map_or(0, |m| m.start())
    }

    fn width(&self) -> usize {
        self.as_ref().map_or(0, |m| m.width())
    }

    fn may_end(&self, state: usize) -> bool {
        self.as_ref().is_some_and(|m| m.may_end(state))
    }

    fn step(&self, state: usize, place: usize) -> Option<Step> {
        self.as_ref()?.step(state, place)
    }
}
