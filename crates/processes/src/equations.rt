// A line of the equations of variables: what a variable does.
ghost use Rattle.std.proofs.Common.{rules};

use rows::Exact;

#[derive(Clone, Copy, Debug, PartialEq, Eq)]
pub enum Equation {
    // The variable does the action and ends.
    Ends(u8, u8),
    // The variable does the action and becomes the second variable.
    Becomes(u8, u8, u8),
}

// Two lines are equal where they say the same.
impl Exact for Equation {
    ghost exact = { Prim.search rules };
}
