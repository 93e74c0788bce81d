// A text cut into lines and fields, and what a line of a model file says: its fields are tokens that borrow the text.
#![tactic(auto)]

pub mod cutting;
pub mod forms;
pub mod said;
pub mod token;
pub mod values;
