// What a line adds to the tables.
ghost use Rattle.std.specs.Prelude.{◌≡◌};
ghost use Rattle.modelfile.specs.Entries.{entry_of, term_of};
ghost use Rattle.modelfile.specs.State.{Narrow, NarrowTerm, Small};

use processes::equations::Equation;
use processes::terms::Term;
use tokens::said::Said;
use tokens::token::Kind;
use transitions::lines::JoinLine;

// An entry of one of the tables, the count of variables, or the start term.
#[derive(Clone, Copy, Debug, PartialEq, Eq)]
pub enum Entry {
    Variables(u32),
    Joins(JoinLine),
    Does(Equation),
    Gives(Term),
    Starts(u32),
}

// Kept: a conversion that asks for narrow numbers is a function, since a `From` may ask nothing.
// The term by its kind and operands, which are narrow enough.
fn term_of(kind: Kind, p: u32, q: u64) -> Term
    requires { NarrowTerm kind p q }
    ensures { result ≡ term_of kind p q }
{
    match kind {
        Kind::Action => Term::Action(p as u8),
        Kind::Deadlock => Term::Deadlock,
        Kind::Variable => Term::Variable(p as u8),
        Kind::Choice => Term::Choice(p as u16, q as u16),
        Kind::Sequence => Term::Sequence(p as u16, q as u16),
        Kind::Merge => Term::Merge(p as u16, q as u16),
        Kind::LeftMerge => Term::LeftMerge(p as u16, q as u16),
        Kind::CommMerge => Term::CommMerge(p as u16, q as u16),
        Kind::Block => Term::Block(p as u16, q),
        Kind::Hide => Term::Hide(p as u16, q),
    }
}

// What is said, as the entry that it adds.
pub(crate) fn entry_of(said: Said) -> Entry
    requires { Narrow said }
    ensures is { result ≡ entry_of said }
    ensures small { Small result }
{
    match said {
        Said::Variables(v) => Entry::Variables(v),
        Said::Joins(a, b, r) => Entry::Joins(JoinLine {
            a: a as u8,
            b: b as u8,
            joint: r as u8,
        }),
        Said::Ends(x, a) => Entry::Does(Equation::Ends(x as u8, a as u8)),
        Said::Becomes(x, a, y) => Entry::Does(Equation::Becomes(x as u8, a as u8, y as u8)),
        Said::Gives(_, kind, p, q) => Entry::Gives(term_of(kind, p, q)),
        Said::Starts(n) => Entry::Starts(n),
    }
}
