// What a reading has put into the rows so far.
ghost use Rattle.std.specs.Prelude.{◌≤◌, length, take};
ghost use Rattle.transitions.specs.Listed.{Once};

use processes::equations::Equation;
use processes::terms::Term;
use transitions::lines::JoinLine;

// The sections of a file, in their order.
#[derive(Clone, Copy, Debug, PartialEq, Eq, PartialOrd, Ord)]
pub enum Section {
    Variables,
    Joins,
    Equations,
    Terms,
    Start,
}

// The section of the last line, the count of variables, and the rows that a caller lends, each with how far it is filled. No two
// lines name the same pair.
// Kept: a row and its count as a struct of their own, generic over the entries: what a `&mut` in a struct in a struct ends as is not known to `read`.
#[derive(Drop)]
pub struct Filling<'t> {
    pub section: Option<Section>,
    pub variables: u32,
    pub lines: &'t mut [JoinLine],
    pub line_count: usize,
    pub equations: &'t mut [Equation],
    pub equation_count: usize,
    pub terms: &'t mut [Term],
    pub term_count: usize,
    ghost variables_few: { variables ≤ 256 },
    ghost lines_in: { line_count ≤ length lines.now },
    ghost equations_in: { equation_count ≤ length equations.now },
    ghost terms_in: { term_count ≤ length terms.now },
    ghost terms_few: { term_count ≤ 256 },
    ghost once: { Once (take line_count lines.now) },
}
