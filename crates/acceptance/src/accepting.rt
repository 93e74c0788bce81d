// Whether a model file may hold given tables.
ghost use Rattle.std.specs.Prelude.{◌≡◌, Decides};
ghost use Rattle.acceptance.specs.Accepted.{Accepted};

use crate::fitting::{equations_fit, is_earlier, terms_fit};
use crate::rings::has_no_ring;
use actions::acceptance::is_acceptable;
use processes::equations::Equation;
use processes::terms::Term;
use rows::stand_once;
use transitions::lines::JoinLine;

pub fn is_accepted(lines: &[JoinLine], equations: &[Equation], terms: &[Term], start: usize) -> bool
    ensures { Decides result (Accepted lines.now equations.now terms.now start) }
{
    if equations.len() > 1024 {
        return false;
    }
    if terms.len() > 256 {
        return false;
    }
    if !is_acceptable(lines) {
        return false;
    }
    if !equations_fit(equations) {
        return false;
    }
    if !stand_once(equations) {
        return false;
    }
    if !has_no_ring(equations) {
        return false;
    }
    if !terms_fit(terms) {
        return false;
    }
    if !stand_once(terms) {
        return false;
    }
    is_earlier(terms.len() + 1, start)
}
