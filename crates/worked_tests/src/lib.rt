// The worked runs through the calls: read, unfold, the table and its text, the sheet, the judge and replies.
#![tactic(auto)]

#[cfg(test)]
mod answers;
#[cfg(test)]
mod files;
#[cfg(test)]
mod unfolded;
