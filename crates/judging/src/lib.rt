// The judge: whether the standing pairs of two models are a match, and if not, the first condition that is broken.
#![tactic(auto)]

mod answering;
pub mod calls;
mod comparison;
mod pairs;
mod queries;
pub mod replies;
mod roots;
mod searching;
mod verdict;
