// Tests of the model file: each refusal with its line, the readings decided upon, and the limits on both sides.
#![tactic(auto)]

#[cfg(test)]
mod limits;
#[cfg(test)]
mod refusals;
#[cfg(test)]
mod tables;
#[cfg(test)]
mod trying;
