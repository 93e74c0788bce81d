// Sheets of pairs over lent bytes, and their calls.
#![tactic(auto)]

mod bits;
pub mod sheet;
mod size;
