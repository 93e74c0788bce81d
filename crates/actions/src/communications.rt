// What every communication answers.
ghost use Rattle.std.specs.Prelude.{◌≡◌};
ghost use Rattle.transitions.specs.Made.{Joins, Communication as Laws};

pub trait Communication {
    // What two actions join to, if they do.
    ghost joins: { Self → Joins };

    // Its three laws: commutative, silent-free, associative.
    ghost lawful: { (c : Self) → Laws (joins c) };

    fn join(&self, a: u8, b: u8) -> Option<u8>
        ensures { result ≡ joins self.now a b };
}
