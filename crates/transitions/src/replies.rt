// How one state of a pair replies to a step of the other, if it has an answer.

#[derive(Clone, Copy, Debug, PartialEq, Eq)]
pub enum Reply {
    // It stays: the step is silent, and its target stands with it.
    Stays,
    // It moves by silent steps to a state, and there does the same at a place.
    Moves(usize, usize),
}
