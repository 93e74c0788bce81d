// A third model put beside a pairing: (s, u) stands with (t, v) when s stands with t and u is v. Beside an empty model nothing
// stands.
ghost use Rattle.std.specs.Prelude.{◌≡◌};
ghost use Rattle.transitions.specs.Made.{beside};

use crate::standing::Pairing;
use models::systems::TransitionSystem;

#[derive(Drop)]
pub struct Beside<'a, P> {
    pairing: &'a P,
    third: usize,
}

impl<'a, P: Pairing> Beside<'a, P> {
    pub fn new<M: TransitionSystem>(pairing: &'a P, model: &M) -> Self
        ensures { ⟦<Self as Pairing>⟧.standing result ≡ beside (M.TransitionSystem.meaning model.now).states (P.Pairing.standing pairing.now) }
    {
        Beside {
            pairing,
            third: model.states(),
        }
    }
}

impl<'a, P: Pairing> Pairing for Beside<'a, P> {
    ghost standing = { λ b. beside b.third (P.Pairing.standing b.pairing.now) };

    fn stands(&self, s: usize, t: usize) -> bool {
        let n = self.third;
        n != 0 && self.pairing.stands(s / n, t / n) && s % n == t % n
    }
}
