// A line of a communication: it lets the actions a and b join to the action `joint`.
ghost use Rattle.std.proofs.Common.{rules};
ghost use Rattle.std.specs.Cmp.Rules.{comparing};

#[repr(C)]
#[derive(Clone, Copy, Debug, Default)]
pub struct JoinLine {
    pub a: u8,
    pub b: u8,
    pub joint: u8,
}

impl JoinLine {
    ghost use Rattle.std.specs.Prelude.{◌≡◌};
    ghost use Rattle.transitions.specs.Listed.{names};

    // Whether the line names a and b, in either order.
    pub fn names(&self, a: u8, b: u8) -> bool
        ensures { result ≡ names self.now a b }
    {
        (self.a == a && self.b == b) || (self.a == b && self.b == a)
    }
}

// Two lines are equal where they name the same pair, in either order, whatever it joins to.
impl PartialEq for JoinLine {
    ghost use Rattle.transitions.specs.Listed.{names};

    ghost eq = { λ x y. names x y.a y.b };

    ghost laws = { Prim.search (comparing, rules) };

    fn eq(&self, other: &JoinLine) -> bool {
        self.names(other.a, other.b)
    }
}

impl Eq for JoinLine {
    ghost laws = { Prim.search (comparing, rules) };
}
