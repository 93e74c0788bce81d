// A model file read and unfolded into room for a small model.
use modelfile::reading::read;
use processes::equations::Equation;
use processes::terms::Term;
use tables::steps_table::Table;
use transitions::lines::JoinLine;
use transitions::steps::Step;
use unfolding::counts::Counts;
use unfolding::unfolds::unfold;

// What an unfolding left.
#[derive(Clone, Copy, Debug, PartialEq, Eq)]
pub struct Unfolded {
    steps: [Step; 16],
    ends: [u16; 9],
    counts: Counts,
}

impl Unfolded {
    pub fn table(&self) -> Table<'_, '_> {
        Table::new(&self.ends, &self.steps, self.counts)
    }
}

// The unfolding of a file, if neither is refused.
pub fn load(bytes: &[u8]) -> Option<Unfolded> {
    let mut lines = [JoinLine::default(); 1];
    let mut equations = [Equation::Ends(0, 0); 8];
    let mut file = [Term::Action(0); 8];
    let n = read(bytes, &mut lines, &mut equations, &mut file).ok()?;
    let mut terms = [Term::Action(0); 8];
    let mut steps = [Step::default(); 16];
    let mut ends = [0u16; 9];
    let counts = unfold(
        &lines[..n.lines],
        &equations[..n.equations],
        &file[..n.terms],
        n.start,
        &mut terms,
        &mut steps,
        &mut ends,
    )
    .ok()?;
    Some(Unfolded {
        steps,
        ends,
        counts,
    })
}
