// What every model answers, by its meaning, a finite transition system.
ghost use Rattle.std.specs.Prelude.{◌≡◌};
ghost use Rattle.transitions.specs.Lts.{Lts, Lawful};

use transitions::steps::Step;

// A model has at most 4,096 states and 4,096 places to a state. Its states are numbered from 0. A state or a place out of range
// has no end and no step. Asking changes nothing.
pub trait TransitionSystem {
    ghost meaning: { Self → Lts };

    ghost lawful: { (m : Self) → Lawful (meaning m) };

    fn states(&self) -> usize
        ensures { result ≡ (meaning self.now).states };

    fn start(&self) -> usize
        ensures { result ≡ (meaning self.now).start };

    // The number of places of every state.
    fn width(&self) -> usize
        ensures { result ≡ (meaning self.now).width };

    fn may_end(&self, state: usize) -> bool
        ensures { result ≡ (meaning self.now).ends state };

    fn step(&self, state: usize, place: usize) -> Option<Step>
        ensures { result ≡ (meaning self.now).step state place };
}
