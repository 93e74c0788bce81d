// A pairing with its sides exchanged.
ghost use Rattle.transitions.specs.Match.{flip};

use crate::standing::Pairing;

#[derive(Drop)]
pub struct Flipped<'a, P> {
    pub pairing: &'a P,
}

impl<'a, P: Pairing> Pairing for Flipped<'a, P> {
    ghost standing = { λ f. flip (P.Pairing.standing f.pairing.now) };

    fn stands(&self, s: usize, t: usize) -> bool {
        self.pairing.stands(t, s)
    }
}
