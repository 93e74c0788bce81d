// Whether a communication may have given lines.
ghost use Rattle.std.specs.Prelude.{ℕ, ◌<◌, length, Decides};
ghost use Rattle.transitions.specs.Listed.{line_at, Once, VisibleLine, Acceptable};
ghost use Rattle.transitions.specs.Made.{Visible};

use crate::grouping::is_associative;
use crate::lines::is_named;
use transitions::lines::JoinLine;

fn is_visible(a: u8) -> bool
    ensures { Decides result (Visible a) }
{
    (1..64).contains(&a)
}

fn is_visible_line(line: &JoinLine) -> bool
    ensures { Decides result (VisibleLine line.now) }
{
    is_visible(line.a) && is_visible(line.b) && is_visible(line.joint)
}

fn all_visible(lines: &[JoinLine]) -> bool
    ensures { Decides result ((k : ℕ) → k < length lines.now → VisibleLine (line_at lines.now k)) }
{
    lines.iter().all(|line| is_visible_line(line))
}

// Whether no two lines name the same pair.
fn names_once(lines: &[JoinLine]) -> bool
    ensures { Decides result (Once lines.now) }
{
    for (k, line) in lines.iter().enumerate() {
        if is_named(&lines[..k], line.a, line.b) {
            return false;
        }
    }
    true
}

// Whether the lines are at most 32, with visible actions, no pair twice, and associative.
pub fn is_acceptable(lines: &[JoinLine]) -> bool
    ensures { Decides result (Acceptable lines.now) }
{
    if lines.len() > 32 {
        return false;
    }
    if !all_visible(lines) {
        return false;
    }
    if !names_once(lines) {
        return false;
    }
    is_associative(lines)
}
