// Two models and a pairing of their states, which all questions of the judge are about.
ghost use Rattle.std.specs.Prelude.{◌≡◌};

use pairings::flipping::Flipped;

#[derive(Drop)]
pub(crate) struct Comparison<'c, L, R, P> {
    pub left: &'c L,
    pub right: &'c R,
    pub pairing: &'c P,
}

impl<'c, L, R, P> Comparison<'c, L, R, P> {
    // The same with the sides exchanged.
    pub(crate) fn turned<'f>(
        &self,
        flipped: &'f Flipped<'f, P>,
    ) -> Comparison<'f, R, L, Flipped<'f, P>>
    where
        'c: 'f,
        ensures left { result.left.now ≡ self.now.right.now }
        ensures right { result.right.now ≡ self.now.left.now }
        ensures pairing { result.pairing.now ≡ flipped.now }
    {
        Comparison {
            left: self.right,
            right: self.left,
            pairing: flipped,
        }
    }
}
