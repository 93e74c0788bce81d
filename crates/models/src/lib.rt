// Models: the trait that every transition system answers, and the kinds that there are.
#![tactic(auto)]

pub mod blocking;
pub mod counters;
pub mod following;
pub mod hiding;
pub mod lending;
pub mod merging;
pub mod optional;
pub mod relabelling;
mod sizes;
pub mod systems;
pub mod two_kinds;
