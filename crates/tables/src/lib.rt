// The table of an unfolding as a model, and its text.
#![tactic(auto)]

mod fitting;
pub mod steps_table;
