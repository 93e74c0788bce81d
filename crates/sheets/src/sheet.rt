// A sheet of pairs over lent bytes: the pair (s, t) is bit i mod 8 of byte i ÷ 8, where i is s times the columns and t. A blank
// sheet is 0 by 0.
use crate::size::Size;

#[derive(Drop)]
pub struct Sheet<'a> {
    bytes: &'a mut [u8],
    size: Size,
}

pub mod changes;
mod lifting;
pub mod opening;
pub mod standing;
pub mod verdicts;
