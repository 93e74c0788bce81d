// Whether lines are associative. It is enough to look at what two lines can join.
ghost use Rattle.std.specs.Prelude.{Decides};
ghost use Rattle.transitions.proofs.Grouping.{Regroups, PairRegroups, LineRegroups, AllRegroup};
ghost use Rattle.transitions.specs.Listed.{Once, Associative};

use crate::lines::{joint_of, partner};
use transitions::lines::JoinLine;

// Whether joining b with c, and then a with that, gives `joint`.
fn regroups(lines: &[JoinLine], a: u8, b: u8, c: u8, joint: u8) -> bool
    ensures { Decides result (Regroups lines.now a b c joint) }
{
    joint_of(lines, b, c).and_then(|d| joint_of(lines, a, d)) == Some(joint)
}

// Whether what `first` joins, and then `second` with an action more, can be grouped the other way.
fn pair_regroups(lines: &[JoinLine], first: JoinLine, second: JoinLine) -> bool
    ensures { Decides result (PairRegroups lines.now first second) }
{
    let Some(c) = partner(second, first.joint) else {
        return true;
    };
    regroups(lines, first.a, first.b, c, second.joint)
        && regroups(lines, first.b, first.a, c, second.joint)
}

// The same for every second line.
fn line_regroups(lines: &[JoinLine], first: JoinLine) -> bool
    ensures { Decides result (LineRegroups lines.now first) }
{
    lines
        .iter()
        .all(|second| pair_regroups(lines, first, *second))
}

// The same for every two lines.
fn all_regroup(lines: &[JoinLine]) -> bool
    ensures { Decides result (AllRegroup lines.now) }
{
    lines.iter().all(|first| line_regroups(lines, *first))
}

// Whether lines that name no pair twice are associative.
pub fn is_associative(lines: &[JoinLine]) -> bool
    ensures { Once lines.now → Decides result (Associative lines.now) }
{
    all_regroup(lines)
}
