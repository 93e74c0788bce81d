// Tests of the judge and of sheets.
#![tactic(auto)]

#[cfg(test)]
mod piles;
#[cfg(test)]
mod refusals;
#[cfg(test)]
mod verdicts;
