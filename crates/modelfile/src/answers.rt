use super::faults::Fault;

// How far each table is filled, the count of variables, and the start term.
#[derive(Clone, Copy, Debug, PartialEq, Eq)]
pub struct Counts {
    pub variables: usize,
    pub lines: usize,
    pub equations: usize,
    pub terms: usize,
    pub start: usize,
}

// Why a file is refused, and at which line, counted from 1; line 0 stands for the whole file.
#[derive(Clone, Copy, Debug, PartialEq, Eq)]
pub struct Refusal {
    pub fault: Fault,
    pub line: usize,
}
