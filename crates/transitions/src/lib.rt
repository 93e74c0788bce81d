// Finite transition systems as mathematics, the values that speak of them, and the functions that name the theorems.
#![tactic(auto)]

pub mod lines;
pub mod replies;
pub mod steps;
pub mod theorems;
pub mod verdicts;
