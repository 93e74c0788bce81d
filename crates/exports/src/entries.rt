// Terms and equations as entries of plain numbers.
use processes::equations::Equation;
use processes::terms::Term;

// Kept: sign and letter are bytes here, since entries cross to C.
// A term by the sign of its line in a model file and its two operands, unused ones 0.
#[repr(C)]
#[derive(Clone, Copy, Debug, PartialEq, Eq)]
pub struct TermEntry {
    pub sign: u8,
    pub first: u16,
    pub second: u64,
}

// An equation by the letter of its line in a model file, e or f, its variable, its action, and the variable that follows.
#[repr(C)]
#[derive(Clone, Copy, Debug, PartialEq, Eq)]
pub struct EquationEntry {
    pub letter: u8,
    pub variable: u8,
    pub action: u8,
    pub next: u8,
}

impl From<Term> for TermEntry {
    ghost use Rattle.std.specs.Prelude.{◌≡◌};
    ghost use Rattle.exports.specs.Entries.{of_term};

    ghost from_gives = { λ t e. e ≡ of_term t };

    fn from(term: Term) -> TermEntry {
        let (sign, first, second) = match term {
            Term::Action(a) => (b'a', u16::from(a), 0),
            Term::Deadlock => (b'd', 0, 0),
            Term::Variable(x) => (b'v', u16::from(x), 0),
            Term::Choice(p, q) => (b'+', p, u64::from(q)),
            Term::Sequence(p, q) => (b'.', p, u64::from(q)),
            Term::Merge(p, q) => (b'm', p, u64::from(q)),
            Term::LeftMerge(p, q) => (b'l', p, u64::from(q)),
            Term::CommMerge(p, q) => (b'j', p, u64::from(q)),
            Term::Block(p, set) => (b'b', p, set),
            Term::Hide(p, set) => (b'h', p, set),
        };
        TermEntry {
            sign,
            first,
            second,
        }
    }
}

// A sign that no term has stands for an action, and operands are cut to their size.
impl From<TermEntry> for Term {
    fn from(entry: TermEntry) -> Term {
        let p = entry.first;
        let q = (entry.second % 65536) as u16;
        match entry.sign {
            b'd' => Term::Deadlock,
            b'v' => Term::Variable((p % 256) as u8),
            b'+' => Term::Choice(p, q),
            b'.' => Term::Sequence(p, q),
            b'm' => Term::Merge(p, q),
            b'l' => Term::LeftMerge(p, q),
            b'j' => Term::CommMerge(p, q),
            b'b' => Term::Block(p, entry.second),
            b'h' => Term::Hide(p, entry.second),
            _ => Term::Action((p % 256) as u8),
        }
    }
}

impl From<Equation> for EquationEntry {
    ghost use Rattle.std.specs.Prelude.{◌≡◌};
    ghost use Rattle.exports.specs.Entries.{of_equation};

    ghost from_gives = { λ q e. e ≡ of_equation q };

    fn from(equation: Equation) -> EquationEntry {
        match equation {
            Equation::Ends(variable, action) => EquationEntry {
                letter: b'f',
                variable,
                action,
                next: 0,
            },
            Equation::Becomes(variable, action, next) => EquationEntry {
                letter: b'e',
                variable,
                action,
                next,
            },
        }
    }
}

// Every letter but e stands for f.
impl From<EquationEntry> for Equation {
    fn from(entry: EquationEntry) -> Equation {
        if entry.letter == b'e' {
            Equation::Becomes(entry.variable, entry.action, entry.next)
        } else {
            Equation::Ends(entry.variable, entry.action)
        }
    }
}

// Turns the entries of one row into those of another, as far as both go.
pub(crate) fn convert<A: Copy, B: From<A> + Copy>(from: &[A], to: &mut [B]) {
    for (place, entry) in to.iter_mut().zip(from) {
        *place = B::from(*entry);
    }
}
