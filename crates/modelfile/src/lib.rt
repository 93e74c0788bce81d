// The model file: what its text may be, the tables that it fills, and why it is refused.
#![tactic(auto)]

pub mod answers;
mod entries;
pub mod faults;
mod filling;
mod judging;
mod limits;
pub mod reading;
mod repeats;
mod storing;
