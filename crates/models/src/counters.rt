// A counter of places: in state k, k places are taken.
ghost use Rattle.std.specs.Prelude.{◌≡◌, ◌<◌, ◌≤◌, Decides};
ghost use Rattle.transitions.proofs.Counted.{counting_lawful};
ghost use Rattle.transitions.specs.Counting.{Countable, CounterIs, counting};

use crate::systems::TransitionSystem;
use transitions::steps::Step;

#[derive(Clone, Copy, Debug, PartialEq, Eq)]
pub struct Counter {
    size: usize,
    take: u8,
    give: u8,
    ghost few: { size ≤ 4096 },
    ghost take_fits: { take < 64 },
    ghost give_fits: { give < 64 },
}

// A cap of at most 4,095, and two actions from 1 to 63.
fn is_countable(cap: usize, take: u8, give: u8) -> bool
    ensures { Decides result (Countable cap take give) }
{
    cap <= 4095 && (1..64).contains(&take) && (1..64).contains(&give)
}

impl Counter {
    // Takes and gives back one place at a time, from 0 to the cap. The empty model where a number is outside the limits.
    pub fn new(cap: usize, take: u8, give: u8) -> Self
        ensures { CounterIs cap take give (⟦<Self as TransitionSystem>⟧.meaning result) }
    {
        if !is_countable(cap, take, give) {
            return Counter {
                size: 0,
                take: 0,
                give: 0,
            };
        }
        Counter {
            size: cap + 1,
            take,
            give,
        }
    }
}

impl TransitionSystem for Counter {
    ghost meaning = { λ c. counting c.size c.take c.give };

    ghost lawful = { λ c. counting_lawful c.few c.take_fits c.give_fits };

    fn states(&self) -> usize {
        self.size
    }

    fn start(&self) -> usize {
        0
    }

    fn width(&self) -> usize {
        if self.size == 0 { 0 } else { 2 }
    }

    fn may_end(&self, state: usize) -> bool {
        state == 0 && state < self.size
    }

    // At place 0 a place more is taken, at place 1 one is given back, where the states before and after are the counter's.
    fn step(&self, state: usize, place: usize) -> Option<Step> {
        let (action, target) = match place {
            0 => (self.take, state.checked_add(1)?),
            1 => (self.give, state.checked_sub(1)?),
            _ => return None,
        };
        if state < self.size && target < self.size {
            Some(Step {
                action,
                target: target as u16,
            })
        } else {
            None
        }
    }
}
