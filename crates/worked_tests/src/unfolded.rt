// What reading and unfolding leave of a file.
use modelfile::reading::read;
use processes::equations::Equation;
use processes::terms::Term;
use tables::steps_table::Table;
use transitions::lines::JoinLine;
use transitions::steps::Step;
use unfolding::counts::Counts;
use unfolding::unfolds::unfold;

#[derive(Clone, Copy, Debug, PartialEq, Eq)]
pub struct Unfolded {
    steps: [Step; 16],
    ends: [u16; 16],
    counts: Counts,
}

impl Unfolded {
    pub fn table(&self) -> Table<'_, '_> {
        Table::new(&self.ends, &self.steps, self.counts)
    }
}

// The table of a file, if neither it nor its unfolding is refused.
pub fn unfold_file(file: &[u8]) -> Option<Unfolded> {
    let mut lines = [JoinLine::default(); 4];
    let mut equations = [Equation::Ends(0, 0); 4];
    let mut read_terms = [Term::Action(0); 8];
    let n = read(file, &mut lines, &mut equations, &mut read_terms).ok()?;
    let mut terms = [Term::Action(0); 15];
    let mut steps = [Step::default(); 16];
    let mut ends = [0u16; 16];
    let counts = unfold(
        &lines[..n.lines],
        &equations[..n.equations],
        &read_terms[..n.terms],
        n.start,
        &mut terms,
        &mut steps,
        &mut ends,
    )
    .ok()?;
    Some(Unfolded {
        steps,
        ends,
        counts,
    })
}
