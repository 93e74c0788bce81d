// Whether tables are such that a model file may hold them.
#![tactic(auto)]

pub mod accepting;
mod fitting;
pub mod rings;
