// Whether the lines of the equations and the terms keep their limits.
ghost use Rattle.std.specs.Prelude.{◌≡◌, ℕ, ◌+◌, ◌<◌, length, Decides};
ghost use Rattle.acceptance.specs.Accepted.{Earlier, VisibleSet, EquationFits, equation_at, TermFits, entry_at};

use processes::equations::Equation;
use processes::terms::Term;

fn equation_fits(equation: Equation) -> bool
    ensures { Decides result (EquationFits equation) }
{
    match equation {
        Equation::Ends(_, a) | Equation::Becomes(_, a, _) => a < 64,
    }
}

pub(crate) fn equations_fit(equations: &[Equation]) -> bool
    ensures { Decides result ((k : ℕ) → k < length equations.now → EquationFits (equation_at equations.now k)) }
{
    equations.iter().all(|equation| equation_fits(*equation))
}

pub(crate) fn is_earlier(n: usize, p: usize) -> bool
    ensures { Decides result (Earlier n p) }
{
    0 < p && p < n
}

fn are_earlier(n: usize, p: u16, q: u16) -> bool
    ensures { Decides result (Earlier n p × Earlier n q) }
{
    is_earlier(n, p as usize) && is_earlier(n, q as usize)
}

fn is_over_set(n: usize, p: u16, set: u64) -> bool
    ensures { Decides result (Earlier n p × VisibleSet set) }
{
    is_earlier(n, p as usize) && set % 2 == 0
}

// Whether the operands of term n fit.
fn term_fits(n: usize, term: Term) -> bool
    ensures { Decides result (TermFits n term) }
{
    match term {
        Term::Action(a) => a < 64,
        Term::Deadlock | Term::Variable(_) => true,
        Term::Choice(p, q)
        | Term::Sequence(p, q)
        | Term::Merge(p, q)
        | Term::LeftMerge(p, q)
        | Term::CommMerge(p, q) => are_earlier(n, p, q),
        Term::Block(p, set) | Term::Hide(p, set) => is_over_set(n, p, set),
    }
}

pub(crate) fn terms_fit(terms: &[Term]) -> bool
    ensures { Decides result ((k : ℕ) → k < length terms.now → TermFits (k + 1) (entry_at terms.now k)) }
{
    terms
        .iter()
        .enumerate()
        .all(|(k, term)| term_fits(k + 1, *term))
}
