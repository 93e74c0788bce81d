// Tests of the unfolding: what fits, what is refused, and the text of a table.
#![tactic(auto)]

#[cfg(test)]
mod refusals;
#[cfg(test)]
mod written;
