// The making of a wide model, and its answers.
ghost use Rattle.std.specs.Prelude.{◌≡◌, min};
ghost use Rattle.models_tests.specs.Wide.{wide, wide_lawful};

use crate::wide::Wide;
use models::systems::TransitionSystem;
use transitions::steps::Step;

impl Wide {
    pub fn new(places: usize) -> Self
        ensures { result.places ≡ min places 4096 }
    {
        Wide {
            places: places.min(4096),
        }
    }
}

impl TransitionSystem for Wide {
    ghost meaning = { λ m. wide m.places };

    ghost lawful = { λ m. wide_lawful m.places m.few };

    fn states(&self) -> usize {
        1
    }

    fn start(&self) -> usize {
        0
    }

    fn width(&self) -> usize {
        self.places
    }

    fn may_end(&self, _state: usize) -> bool {
        false
    }

    fn step(&self, _state: usize, _place: usize) -> Option<Step> {
        None
    }
}
