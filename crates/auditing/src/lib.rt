// Any list of calls on a new sheet, and what a sheet then says of two models.
#![tactic(auto)]

pub mod audits;
pub mod calls;
mod making;
