// Process terms and the equations of variables, as plain values; what each term does is said by the rules in specs/.
#![tactic(auto)]

pub mod equations;
pub mod terms;
