// Whether silent lines of the equations run in a ring.
ghost use Rattle.std.specs.Prelude.{ℕ, List, Decides};
ghost use Rattle.acceptance.specs.Accepted.{NoRing};
ghost use Rattle.acceptance.specs.Walks.{Marks, MarksOf, targets, walkers};

use processes::equations::Equation;

// The variables that some line leads to.
fn targets_of(equations: &[Equation]) -> [bool; 256]
    ensures { Marks result (targets equations.now) }
{
    let mut marks = [false; 256];
    for line in equations {
        match *line {
            Equation::Becomes(_x, _a, y) => marks[y as usize] = true,
            Equation::Ends(_x, _a) => {}
        }
    }
    marks
}

// The variables with a silent line to a marked one, if there are any.
fn walkers_of(equations: &[Equation], marks: &[bool; 256]) -> Option<[bool; 256]>
    ensures { (A : List ℕ) → Marks marks.now A → MarksOf result (walkers equations.now A) }
{
    let mut next = [false; 256];
    let mut found = false;
    for line in equations {
        match *line {
            Equation::Becomes(x, a, y) => {
                if a == 0 {
                    if marks[y as usize] {
                        next[x as usize] = true;
                        found = true;
                    }
                }
            }
            Equation::Ends(_x, _a) => {}
        }
    }
    found.then_some(next)
}

// There is a ring if some silent walk is longer than the lines are many.
pub fn has_no_ring(equations: &[Equation]) -> bool
    ensures { Decides result (NoRing equations.now) }
{
    let mut marks = targets_of(equations);
    for _ in 0..equations.len() {
        match walkers_of(equations, &marks) {
            Some(next) => marks = next,
            None => return true,
        }
    }
    walkers_of(equations, &marks).is_none()
}
