// Actions: sets of them, and communications, which say what two of them join to. An action is a number from 0 to 63, and 0 is
// silent.
#![tactic(auto)]

pub mod acceptance;
pub mod communications;
pub mod grouping;
pub mod lines;
pub mod listed;
pub mod ports;
pub mod sets;
pub mod two_kinds;
