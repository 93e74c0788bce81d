use super::token::Kind;

// What a line says, before any limit is looked at.
#[derive(Clone, Copy, Debug, PartialEq, Eq)]
pub enum Said {
    Variables(u32),
    Joins(u32, u32, u32),
    Becomes(u32, u32, u32),
    Ends(u32, u32),
    Gives(u32, Kind, u32, u64),
    Starts(u32),
}
