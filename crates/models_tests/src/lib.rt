// Tests of the models, their limits and the communications.
#![tactic(auto)]

#[cfg(test)]
mod communications;
#[cfg(test)]
mod kinds;
#[cfg(test)]
mod limits;
pub mod wide;
