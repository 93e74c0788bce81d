// A model without the steps whose action is in a set (encapsulation).
ghost use Rattle.std.specs.Prelude.{◌≡◌};
ghost use Rattle.actions.specs.Sets.{has};
ghost use Rattle.transitions.proofs.Lawfully.{block_lawful};
ghost use Rattle.transitions.specs.Made.{block, dropping};
ghost use Rattle.transitions.specs.Rules.{Blocks};

use crate::relabelling::{Relabel, Relabelled};
use crate::systems::TransitionSystem;
use actions::sets::ActionSet;

// Drops the steps whose action is in the set.
#[derive(Clone, Copy, Debug, PartialEq, Eq)]
pub struct Blocking {
    set: ActionSet,
}

// The model beneath without those steps.
pub type Blocked<M> = Relabelled<M, Blocking>;

impl Relabel for Blocking {
    ghost becomes = { λ b. dropping (has b.set) };

    ghost lawful = { λ b. block_lawful (has b.set) };

    fn relabel(&self, action: u8) -> Option<u8> {
        (!self.set.contains(action)).then_some(action)
    }
}

impl<M: TransitionSystem> Relabelled<M, Blocking> {
    // Over an empty model it is empty, as the model beneath is.
    pub fn new(model: M, set: ActionSet) -> Self
        ensures is { ⟦<Self as TransitionSystem>⟧.meaning result ≡ block (has set) (M.TransitionSystem.meaning model) }
        ensures rules { Blocks (has set) (M.TransitionSystem.meaning model) (⟦<Self as TransitionSystem>⟧.meaning result) }
    {
        Relabelled {
            model,
            labels: Blocking { set },
        }
    }
}
