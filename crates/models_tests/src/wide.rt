// A model of one state with no step and as many places as asked for, at most 4,096: a kind of this crate's own.
ghost use Rattle.std.specs.Prelude.{◌≤◌};

#[derive(Clone, Copy, Debug, PartialEq, Eq)]
pub struct Wide {
    places: usize,
    ghost few: { places ≤ 4096 },
}

pub mod answers;
