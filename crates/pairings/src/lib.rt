// Pairings of the states of two models, and the refusals of the calls on them.
#![tactic(auto)]

pub mod besides;
pub mod faults;
pub mod flipping;
pub mod standing;
