// A model in which the actions of a set are silent (abstraction).
ghost use Rattle.std.specs.Prelude.{◌≡◌};
ghost use Rattle.actions.specs.Sets.{has};
ghost use Rattle.transitions.proofs.Lawfully.{hide_lawful};
ghost use Rattle.transitions.specs.Made.{hide, silencing};
ghost use Rattle.transitions.specs.Rules.{Hides};

use crate::relabelling::{Relabel, Relabelled};
use crate::systems::TransitionSystem;
use actions::sets::ActionSet;

// Makes the steps silent whose action is in the set.
#[derive(Clone, Copy, Debug, PartialEq, Eq)]
pub struct Hiding {
    set: ActionSet,
}

// The model beneath with those steps silent.
pub type Hidden<M> = Relabelled<M, Hiding>;

impl Relabel for Hiding {
    ghost becomes = { λ h. silencing (has h.set) };

    ghost lawful = { λ h. hide_lawful (has h.set) };

    fn relabel(&self, action: u8) -> Option<u8> {
        Some(if self.set.contains(action) { 0 } else { action })
    }
}

impl<M: TransitionSystem> Relabelled<M, Hiding> {
    // Over an empty model it is empty, as the model beneath is.
    pub fn new(model: M, set: ActionSet) -> Self
        ensures is { ⟦<Self as TransitionSystem>⟧.meaning result ≡ hide (has set) (M.TransitionSystem.meaning model) }
        ensures rules { Hides (has set) (M.TransitionSystem.meaning model) (⟦<Self as TransitionSystem>⟧.meaning result) }
    {
        Relabelled {
            model,
            labels: Hiding { set },
        }
    }
}
