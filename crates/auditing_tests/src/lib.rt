// Tests of lists of calls, and a model for them.
#![tactic(auto)]

#[cfg(test)]
mod lists;
pub mod small;
