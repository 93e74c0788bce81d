// The calls of this repository for a program in another language. Rows of numbers and of plain structs are lent by the caller, who
// sees in them what each call left behind.
#![tactic(auto)]

mod answers;
mod asking;
mod building;
mod calling;
mod descriptions;
mod entries;
mod files;
mod timing;
