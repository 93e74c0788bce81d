// A model that is lent: a model behind a reference answers as the model does.
use crate::systems::TransitionSystem;
use transitions::steps::Step;

impl<M: TransitionSystem> TransitionSystem for &M {
    ghost meaning = { λ m. M.TransitionSystem.meaning m.now };

    ghost lawful = { λ m. M.TransitionSystem.lawful m.now };

    fn states(&self) -> usize {
        (**self).states()
    }

    fn start(&self) -> usize {
        (**self).start()
    }

    fn width(&self) -> usize {
        (**self).width()
    }

    fn may_end(&self, state: usize) -> bool {
        (**self).may_end(state)
    }

    fn step(&self, state: usize, place: usize) -> Option<Step> {
        (**self).step(state, place)
    }
}
