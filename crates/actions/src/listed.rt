// A communication given by lent lines.
ghost use Rattle.transitions.specs.Listed.{Acceptable, ByLines, listed_joins};

use crate::acceptance::is_acceptable;
use crate::communications::Communication;
use crate::lines::joint_of;
use transitions::lines::JoinLine;

#[derive(Clone, Copy)]
pub struct Listed<'a> {
    lines: &'a [JoinLine],
    ghost accepted: { ∥ Acceptable lines.now ∥₁ },
}

// The lines if they are acceptable, else none of them.
fn accepted_part(lines: &[JoinLine]) -> &[JoinLine]
    ensures accepted { ∥ Acceptable result.now ∥₁ }
    ensures joins { ByLines lines.now (listed_joins result.now) }
{
    if is_acceptable(lines) {
        lines
    } else {
        &lines[0..0]
    }
}

impl<'a> Listed<'a> {
    ghost use Rattle.actions.specs.Communications.{of_listed};

    // Lines that are not acceptable join nothing.
    pub fn new(lines: &'a [JoinLine]) -> Listed<'a>
        ensures { ByLines lines.now (of_listed result) }
    {
        Listed {
            lines: accepted_part(lines),
        }
    }
}

impl<'a> Communication for Listed<'a> {
    ghost use Rattle.actions.specs.Communications.{of_listed};
    ghost use Rattle.transitions.proofs.Grouping.{listed_lawful};

    ghost joins = { of_listed };

    ghost lawful = { λ c. listed_lawful c.lines.now c.accepted };

    fn join(&self, a: u8, b: u8) -> Option<u8> {
        joint_of(self.lines, a, b)
    }
}
