// The search for the line that names a pair of actions.
ghost use Rattle.std.specs.Prelude.{◌≡◌, ℕ, Some};
ghost use Rattle.std.specs.List.{list_any};
ghost use Rattle.transitions.specs.Listed.{Names, names, listed_joins};
ghost use Rattle.transitions.specs.Rules.{Iff};

use rows::find_same;
use transitions::lines::JoinLine;

// Whether some line names a and b.
pub fn is_named(lines: &[JoinLine], a: u8, b: u8) -> bool
    ensures { result ≡ list_any (λ l. names l a b) lines.now }
{
    find_same(lines, &JoinLine { a, b, joint: 0 }).is_some()
}

// What a and b join to: the joint of the first line that names them.
pub fn joint_of(lines: &[JoinLine], a: u8, b: u8) -> Option<u8>
    ensures { result ≡ listed_joins lines.now a b }
{
    let place = find_same(lines, &JoinLine { a, b, joint: 0 })?;
    Some(lines[place].joint)
}

// The action that the line names beside a.
pub(crate) fn partner(line: JoinLine, a: u8) -> Option<u8>
    ensures { (c : ℕ) → Iff (result ≡ Some c) (Names line a c) }
{
    if line.a == a {
        Some(line.b)
    } else if line.b == a {
        Some(line.a)
    } else {
        None
    }
}
