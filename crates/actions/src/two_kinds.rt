// A communication that is one of two kinds.
ghost use Rattle.actions.specs.Either.{either_keeps};
ghost use Rattle.either.specs.Either.{either};

use crate::communications::Communication;
use either::{Either, for_both};

impl<A: Communication, B: Communication> Communication for Either<A, B> {
    ghost joins = { either A.Communication.joins B.Communication.joins };

    ghost lawful = { either_keeps A.Communication.lawful B.Communication.lawful };

    fn join(&self, a: u8, b: u8) -> Option<u8> {
        for_both!(self, c => c.join(a, b))
    }
}
