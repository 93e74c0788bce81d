// A process term by its sign and what stands beneath it: numbers of earlier terms, an action, a variable, or a set of actions as
// the sum of 2 to the power of each.
ghost use Rattle.std.proofs.Common.{rules};

use rows::Exact;

#[derive(Clone, Copy, Debug, PartialEq, Eq)]
pub enum Term {
    Action(u8),
    Deadlock,
    Variable(u8),
    Choice(u16, u16),
    Sequence(u16, u16),
    Merge(u16, u16),
    LeftMerge(u16, u16),
    CommMerge(u16, u16),
    Block(u16, u64),
    Hide(u16, u64),
}

// Two terms are equal where sign and operands agree.
impl Exact for Term {
    ghost exact = { Prim.search rules };
}
