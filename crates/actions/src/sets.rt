// A set of the actions 1 to 63, as the sum of 2 to the power of each. No set holds the silent action 0.
ghost use Rattle.std.specs.Prelude.{◌≡◌, ◌-◌, ◌%◌};

#[derive(Clone, Copy, Debug, PartialEq, Eq)]
pub struct ActionSet {
    bits: u64,
    ghost visible: { bits % 2 ≡ 0 },
}

// The mask without bit 0.
fn cleared(mask: u64) -> u64
    ensures { result ≡ mask - mask % 2 }
{
    mask / 2 * 2
}

impl ActionSet {
    ghost use Rattle.std.specs.Prelude.{◌≡◌};
    ghost use Rattle.actions.specs.Sets.{has};
    ghost use Rattle.transitions.specs.Communications.{of_mask, visible_of};

    // The actions of the mask, bit a standing for action a. Bit 0 is dropped.
    pub fn new(mask: u64) -> Self
        ensures { has result ≡ visible_of (of_mask mask) }
    {
        ActionSet {
            bits: cleared(mask),
        }
    }

    pub fn contains(&self, action: u8) -> bool
        ensures { result ≡ has self.now action }
    {
        action < 64 && (self.bits >> action) % 2 == 1
    }
}
