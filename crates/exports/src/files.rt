// Reading, unfolding, and the text of a table.
ghost use Rattle.exports.specs.Answers.{Reads, Unfolds, Writes};

use crate::entries::{EquationEntry, TermEntry, convert};
use modelfile::answers::{Counts as Filled, Refusal as Refused};
use modelfile::reading::read;
use processes::equations::Equation;
use processes::terms::Term;
use tables::steps_table::Table;
use transitions::lines::JoinLine;
use transitions::steps::Step;
use unfolding::counts::Counts;
use unfolding::refusals::Refusal;
use unfolding::unfolds::unfold;

// Kept: a refusal is a number in these three, and 0 a success, since they cross to C.
// Number 0 and the counts, or the number of a refusal and its line.
#[repr(C)]
#[derive(Clone, Copy, Debug, PartialEq, Eq, Default)]
pub struct Reading {
    pub number: u8,
    pub line: usize,
    pub variables: usize,
    pub lines: usize,
    pub equations: usize,
    pub terms: usize,
    pub start: usize,
}

// Number 0 and the counts, or the number of a refusal.
#[repr(C)]
#[derive(Clone, Copy, Debug, PartialEq, Eq, Default)]
pub struct Unfolding {
    pub number: u8,
    pub terms: usize,
    pub steps: usize,
    pub start: usize,
}

// Number 0 and the length of the text, or the number of a refusal.
#[repr(C)]
#[derive(Clone, Copy, Debug, PartialEq, Eq, Default)]
pub struct Writing {
    pub number: u8,
    pub length: usize,
}

impl From<Result<Filled, Refused>> for Reading {
    ghost use Rattle.std.specs.Prelude.{◌≡◌};
    ghost use Rattle.exports.specs.Answers.{of_reading};

    ghost from_gives = { λ r a. a ≡ of_reading r };

    fn from(res: Result<Filled, Refused>) -> Reading {
        match res {
            Ok(n) => Reading {
                number: 0,
                line: 0,
                variables: n.variables,
                lines: n.lines,
                equations: n.equations,
                terms: n.terms,
                start: n.start,
            },
            Err(refusal) => Reading {
                number: refusal.fault.number(),
                line: refusal.line,
                ..Reading::default()
            },
        }
    }
}

impl From<Result<Counts, Refusal>> for Unfolding {
    ghost use Rattle.std.specs.Prelude.{◌≡◌};
    ghost use Rattle.exports.specs.Answers.{of_unfolding};

    ghost from_gives = { λ r a. a ≡ of_unfolding r };

    fn from(res: Result<Counts, Refusal>) -> Unfolding {
        match res {
            Ok(n) => Unfolding {
                number: 0,
                terms: n.terms,
                steps: n.steps,
                start: n.start,
            },
            Err(refusal) => Unfolding {
                number: refusal.number(),
                ..Unfolding::default()
            },
        }
    }
}

impl From<Result<usize, Refusal>> for Writing {
    ghost use Rattle.std.specs.Prelude.{◌≡◌};
    ghost use Rattle.exports.specs.Answers.{of_writing};

    ghost from_gives = { λ r a. a ≡ of_writing r };

    fn from(res: Result<usize, Refusal>) -> Writing {
        match res {
            Ok(length) => Writing { number: 0, length },
            Err(refusal) => Writing {
                number: refusal.number(),
                length: 0,
            },
        }
    }
}

// Reads a model file into the tables lent, by way of rows of equations and terms.
fn read_by(
    bytes: &[u8],
    lines: &mut [JoinLine],
    equations: &mut [EquationEntry],
    terms: &mut [TermEntry],
    does: &mut [Equation],
    gives: &mut [Term],
) -> Reading
    ensures { Reads bytes.now lines.old lines.new result }
{
    let e = equations.len().min(does.len());
    let t = terms.len().min(gives.len());
    convert(equations, does);
    convert(terms, gives);
    let result = read(bytes, lines, &mut does[0..e], &mut gives[0..t]);
    convert(does, equations);
    convert(gives, terms);
    Reading::from(result)
}

// Reads a model file into the tables lent: of the equations at most 1,040 entries are used, and of the terms at most 272.
#[unsafe(no_mangle)]
pub extern "C" fn dimityrock_read(
    bytes: &[u8],
    lines: &mut [JoinLine],
    equations: &mut [EquationEntry],
    terms: &mut [TermEntry],
) -> Reading
    ensures { Reads bytes.now lines.old lines.new result }
{
    let mut does = [Equation::Ends(0, 0); 1040];
    let mut gives = [Term::Action(0); 272];
    read_by(bytes, lines, equations, terms, &mut does, &mut gives)
}

// Unfolds given equations and terms into the tables lent, by way of a row of terms.
fn unfold_by(
    lines: &[JoinLine],
    equations: &[Equation],
    file: &[Term],
    start: usize,
    terms: &mut [TermEntry],
    steps: &mut [Step],
    ends: &mut [u16],
    made: &mut [Term],
) -> Unfolding
    ensures { Unfolds lines.now start steps.old steps.new ends.old ends.new result }
{
    let t = terms.len().min(made.len());
    convert(terms, made);
    let result = unfold(lines, equations, file, start, &mut made[0..t], steps, ends);
    convert(made, terms);
    Unfolding::from(result)
}

// Unfolds the lines, equations, terms and start handed over into the tables lent: at most 1,040 equations and 272 terms are looked
// at, and of the terms lent at most 4,112 entries are used.
#[unsafe(no_mangle)]
pub extern "C" fn dimityrock_unfold(
    lines: &[JoinLine],
    equations: &[EquationEntry],
    file: &[TermEntry],
    start: usize,
    terms: &mut [TermEntry],
    steps: &mut [Step],
    ends: &mut [u16],
) -> Unfolding
    ensures { Unfolds lines.now start steps.old steps.new ends.old ends.new result }
{
    let e = equations.len().min(1040);
    let f = file.len().min(272);
    let mut does = [Equation::Ends(0, 0); 1040];
    let mut gives = [Term::Action(0); 272];
    let mut made = [Term::Action(0); 4112];
    convert(equations, &mut does);
    convert(file, &mut gives);
    unfold_by(
        lines,
        &does[0..e],
        &gives[0..f],
        start,
        terms,
        steps,
        ends,
        &mut made,
    )
}

// Writes the text of the table that stands in row ends and steps. Where these are no table it is the text of the empty one.
#[unsafe(no_mangle)]
pub extern "C" fn dimityrock_write(
    ends: &[u16],
    steps: &[Step],
    terms: usize,
    count: usize,
    start: usize,
    text: &mut [u8],
) -> Writing
    ensures { Writes ends.now steps.now (record { terms = terms; steps = count; start = start }) text.old text.new result }
{
    let table = Table::new(
        ends,
        steps,
        Counts {
            terms,
            steps: count,
            start,
        },
    );
    Writing::from(table.write(text))
}
