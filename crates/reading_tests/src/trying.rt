// A text read into tables that are one entry longer than any limit, or into tables of one entry.
use modelfile::reading::read;
use processes::equations::Equation;
use processes::terms::Term;
use transitions::lines::JoinLine;

const LINE: JoinLine = JoinLine {
    a: 0,
    b: 0,
    joint: 0,
};

const EQUATION: Equation = Equation::Ends(0, 0);

const TERM: Term = Term::Action(0);

// The number and line of the refusal, both 0 if the text is read.
fn outcome_in(
    text: &[u8],
    lines: &mut [JoinLine],
    equations: &mut [Equation],
    terms: &mut [Term],
) -> (u8, usize) {
    match read(text, lines, equations, terms) {
        Ok(_) => (0, 0),
        Err(e) => (e.fault.number(), e.line),
    }
}

pub fn outcome(text: &[u8]) -> (u8, usize) {
    outcome_in(
        text,
        &mut [LINE; 33],
        &mut [EQUATION; 1025],
        &mut [TERM; 257],
    )
}

pub fn short_outcome(text: &[u8]) -> (u8, usize) {
    outcome_in(text, &mut [LINE], &mut [EQUATION], &mut [TERM])
}
