// Lines of a letter and three numbers, written into a lent buffer.
#![tactic(auto)]

pub mod lines;
mod numbers;
