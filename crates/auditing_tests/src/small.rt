// A counter of two or of three states that takes by action 1 and gives by action 2.
ghost use Rattle.std.specs.Prelude.{◌≡◌};
ghost use Rattle.auditing_tests.specs.Smalls.{of_small, small_lawful, size_of};

use models::systems::TransitionSystem;
use transitions::steps::Step;

#[derive(Clone, Copy)]
pub struct Small {
    pub three: bool,
}

fn size(three: bool) -> usize
    ensures { result ≡ size_of three }
{
    if three { 3 } else { 2 }
}

impl TransitionSystem for Small {
    ghost meaning = { of_small };

    ghost lawful = { small_lawful };

    fn states(&self) -> usize {
        size(self.three)
    }

    fn start(&self) -> usize {
        0
    }

    fn width(&self) -> usize {
        2
    }

    fn may_end(&self, state: usize) -> bool {
        state == 0
    }

    fn step(&self, state: usize, place: usize) -> Option<Step> {
        let n = size(self.three);
        if state >= n {
            return None;
        }
        if place == 0 && state + 1 < n {
            return Some(Step {
                action: 1,
                target: state as u16 + 1,
            });
        }
        if place == 1 && 0 < state {
            return Some(Step {
                action: 2,
                target: state as u16 - 1,
            });
        }
        None
    }
}
