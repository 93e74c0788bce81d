// Whether an entry stands already, and whether there is room for it.
ghost use Rattle.std.specs.Prelude.{◌≡◌};
ghost use Rattle.processes.specs.Sameness.{same_equation, same_term};
ghost use Rattle.transitions.specs.Listed.{names};
ghost use Rattle.modelfile.specs.Tests.{any, said_before, full, too_many};

use super::entries::Entry;
use super::filling::Filling;
use processes::equations::Equation;
use processes::terms::Term;
use rows::find_same;
use transitions::lines::JoinLine;

fn is_line_before(lines: &[JoinLine], l: JoinLine) -> bool
    ensures { result ≡ any (λ k. names k l.a l.b) lines.now }
{
    find_same(lines, &l).is_some()
}

fn is_equation_before(equations: &[Equation], e: Equation) -> bool
    ensures { result ≡ any (λ d. same_equation d e) equations.now }
{
    find_same(equations, &e).is_some()
}

fn is_term_before(terms: &[Term], t: Term) -> bool
    ensures { result ≡ any (λ s. same_term s t) terms.now }
{
    find_same(terms, &t).is_some()
}

// Whether the limit or the row leaves no room behind so many entries.
fn is_full(limit: usize, room: usize, count: usize) -> bool
    ensures { result ≡ full limit room count }
{
    limit <= count || room <= count
}

impl Filling<'_> {
    ghost use Rattle.modelfile.specs.State.{seen, room_of};

    // Whether an earlier line said the same.
    pub(crate) fn is_said_before(&self, entry: Entry) -> bool
        ensures { result ≡ said_before (seen self.now) entry }
    {
        match entry {
            Entry::Joins(l) => is_line_before(&self.lines[..self.line_count], l),
            Entry::Does(e) => is_equation_before(&self.equations[..self.equation_count], e),
            Entry::Gives(t) => is_term_before(&self.terms[..self.term_count], t),
            Entry::Variables(_) | Entry::Starts(_) => false,
        }
    }

    // Whether the entry is one too many, where so many may be stored.
    pub(crate) fn is_too_many(&self, entry: Entry) -> bool
        ensures { result ≡ too_many (room_of self.now) self.now.line_count self.now.equation_count self.now.term_count entry }
    {
        match entry {
            Entry::Joins(_) => is_full(32, self.lines.len(), self.line_count),
            Entry::Does(_) => is_full(1024, self.equations.len(), self.equation_count),
            Entry::Gives(_) => is_full(256, self.terms.len(), self.term_count),
            Entry::Variables(_) | Entry::Starts(_) => false,
        }
    }
}
