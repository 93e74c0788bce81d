// What stands at one place of a state: an action from 0 to 63, 0 being silent, and the state that it leads to. A model has at
// most 4,096 states, so a target fits 16 bits.
ghost use Rattle.std.proofs.Common.{rules};

use rows::Exact;

#[repr(C)]
#[derive(Clone, Copy, Debug, PartialEq, Eq, Default)]
pub struct Step {
    pub action: u8,
    pub target: u16,
}

// Two steps are equal where action and target agree.
impl Exact for Step {
    ghost exact = { Prim.search rules };
}
