// What every pairing answers. Asking changes nothing.
ghost use Rattle.std.specs.Prelude.{◌≡◌};
ghost use Rattle.pairings.specs.Next.{Next};
ghost use Rattle.transitions.specs.Match.{Pairing as Stood};

pub trait Pairing {
    ghost standing: { Self → Stood };

    // Whether the left state s stands with the right state t.
    fn stands(&self, s: usize, t: usize) -> bool
        ensures { result ≡ standing self.now s t };

    // The lowest right state from `from` on and below `below` that stands with s.
    fn next_standing(&self, s: usize, from: usize, below: usize) -> Option<usize>
        ensures { Next (standing self.now s) from below result }
    {
        // Kept: `(from..below).find(|&t| self.stands(s, t))` proves, but takes 1.6 times as long where `stands` is short.
        for t in from..below {
            if self.stands(s, t) {
                return Some(t);
            }
        }
        None
    }
}
