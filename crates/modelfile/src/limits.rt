// What is said, tested for its turn, its limits, its term numbers, and the silent action.
ghost use Rattle.std.specs.Prelude.{◌≡◌, ◌≤◌, false};
ghost use Rattle.modelfile.specs.State.{turn_after, place_of, Limited, NarrowLeaf, NarrowNode, Numbered};
ghost use Rattle.modelfile.specs.Tests.{turn_of, out_of_turn, over_limit, term_over_limit, not_before, operand_not_before, wrong_number, odd_set, silent_used};

use super::filling::Section;
use tokens::said::Said;
use tokens::token::Kind;

// The section that the line belongs to.
pub(crate) fn section_of(said: Said) -> Section
    ensures { place_of result ≡ turn_of said }
{
    match said {
        Said::Variables(_) => Section::Variables,
        Said::Joins(_, _, _) => Section::Joins,
        Said::Becomes(_, _, _) | Said::Ends(_, _) => Section::Equations,
        Said::Gives(_, _, _, _) => Section::Terms,
        Said::Starts(_) => Section::Start,
    }
}

// Whether a line of the section `next` may not follow one of the section `last`, or may not be the first.
pub(crate) fn is_out_of_turn(last: Option<Section>, next: Section) -> bool
    ensures { result ≡ out_of_turn (turn_after last) (place_of next) }
{
    match last {
        None => next != Section::Variables,
        Some(last) => next == Section::Variables || next < last,
    }
}

fn is_term_over_limit(variables: u32, kind: Kind, p: u32, q: u64) -> bool
    ensures is { result ≡ term_over_limit variables kind p q }
    ensures narrow { result ≡ false → variables ≤ 256 → NarrowLeaf kind p }
{
    match kind {
        Kind::Action => p > 63 || q != 0,
        Kind::Deadlock => p != 0 || q != 0,
        Kind::Variable => p >= variables || q != 0,
        _ => false,
    }
}

// Whether a number is over its limit, or an unused field is not 0.
pub(crate) fn is_over_limit(variables: u32, said: Said) -> bool
    ensures is { result ≡ over_limit variables said }
    ensures narrow { result ≡ false → variables ≤ 256 → Limited said }
{
    match said {
        Said::Variables(v) => v > 256,
        Said::Joins(a, b, r) => a > 63 || b > 63 || r > 63,
        Said::Becomes(x, a, y) => x >= variables || a > 63 || y >= variables,
        Said::Ends(x, a) => x >= variables || a > 63,
        Said::Gives(_, kind, p, q) => is_term_over_limit(variables, kind, p, q),
        Said::Starts(_) => false,
    }
}

fn is_not_before(n: u32, p: u64) -> bool
    ensures { result ≡ not_before n p }
{
    p == 0 || p >= n as u64
}

fn has_later_operand(n: u32, kind: Kind, p: u32, q: u64) -> bool
    ensures is { result ≡ operand_not_before n kind p q }
    ensures narrow { result ≡ false → n ≤ 257 → NarrowNode kind p q }
{
    match kind {
        Kind::Action | Kind::Deadlock | Kind::Variable => false,
        Kind::Block | Kind::Hide => is_not_before(n, p as u64),
        _ => is_not_before(n, p as u64) || is_not_before(n, q),
    }
}

// Whether a term is not the next one, has an operand that is not earlier, or the start term is not given.
pub(crate) fn has_wrong_number(terms: usize, said: Said) -> bool
    requires { terms ≤ 256 }
    ensures is { result ≡ wrong_number terms said }
    ensures narrow { result ≡ false → Numbered said }
{
    let next = terms as u32 + 1;
    match said {
        Said::Gives(n, kind, p, q) => n != next || has_later_operand(n, kind, p, q),
        Said::Starts(n) => is_not_before(next, n as u64),
        _ => false,
    }
}

fn is_odd_set(kind: Kind, q: u64) -> bool
    ensures { result ≡ odd_set kind q }
{
    matches!(kind, Kind::Block | Kind::Hide) && q % 2 == 1
}

// Whether the silent action stands in a communication or a set.
pub(crate) fn uses_silent(said: Said) -> bool
    ensures { result ≡ silent_used said }
{
    match said {
        Said::Joins(a, b, r) => a == 0 || b == 0 || r == 0,
        Said::Gives(_, kind, _, q) => is_odd_set(kind, q),
        _ => false,
    }
}
