// A model whose steps are relabelled: each action becomes another one, or its step is dropped. The rest is as beneath.
ghost use Rattle.std.specs.Prelude.{◌≡◌};
ghost use Rattle.transitions.specs.Lts.{Lts, Lawful};
ghost use Rattle.transitions.specs.Made.{Change, relabel};

use crate::systems::TransitionSystem;
use transitions::steps::Step;

// What becomes of an action: another, or nothing. A model keeps its limits when its steps are relabelled so.
pub trait Relabel {
    ghost becomes: { Self → Change };

    ghost lawful: { (r : Self) {L : Lts} → Lawful L → Lawful (relabel (becomes r) L) };

    // The action that a step of this action has afterwards, or none where the step is dropped.
    fn relabel(&self, action: u8) -> Option<u8>
        ensures { result ≡ becomes self.now action };
}

// The model beneath and what becomes of its actions.
#[derive(Drop)]
pub struct Relabelled<M, R> {
    pub(crate) model: M,
    pub(crate) labels: R,
}

impl<M: TransitionSystem, R: Relabel> TransitionSystem for Relabelled<M, R> {
    ghost meaning = { λ m. relabel (R.Relabel.becomes m.labels) (M.TransitionSystem.meaning m.model) };

    ghost lawful = { λ m. R.Relabel.lawful m.labels (M.TransitionSystem.lawful m.model) };

    fn states(&self) -> usize {
        self.model.states()
    }

    fn start(&self) -> usize {
        self.model.start()
    }

    fn width(&self) -> usize {
        self.model.width()
    }

    fn may_end(&self, state: usize) -> bool {
        self.model.may_end(state)
    }

    fn step(&self, state: usize, place: usize) -> Option<Step> {
        let Step { action, target } = self.model.step(state, place)?;
        let action = self.labels.relabel(action)?;
        Some(Step { action, target })
    }
}
