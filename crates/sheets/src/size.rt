// The two sizes that a sheet keeps. A model has at most 4,096 states, so each fits 16 bits.

// Kept: 0 by 0 is the blank sheet, not an `Option`: it has no pair in range, so no call but the first refusal asks which it is.
#[derive(Clone, Copy, Debug, PartialEq, Eq)]
pub struct Size {
    pub rows: u16,
    pub columns: u16,
}

pub mod measuring;
