// What a call on a sheet answered, in numbers.
use pairings::faults::Fault;
use transitions::replies::Reply;
use transitions::verdicts::{Figures, Verdict};

// Kind 0 is done; 1 a verdict by its figures; 2 a reply, where number 0 stays, 1 moves to the state `left` and the place, and 2 is
// none; 3 a refusal by its number. What is not used is 0.
// Kept: kinds and refusals are numbers here, since the answer crosses to C.
#[repr(C)]
#[derive(Clone, Copy, Debug, PartialEq, Eq, Default)]
pub struct Answer {
    pub kind: u8,
    pub number: u8,
    pub left: usize,
    pub right: usize,
    pub side: u8,
    pub place: usize,
}

impl From<Fault> for Answer {
    ghost use Rattle.std.specs.Prelude.{◌≡◌};
    ghost use Rattle.exports.specs.Answers.{of_fault};

    ghost from_gives = { λ fault a. a ≡ of_fault fault };

    fn from(fault: Fault) -> Answer {
        Answer {
            kind: 3,
            number: fault.number(),
            ..Answer::default()
        }
    }
}

impl From<Result<(), Fault>> for Answer {
    ghost use Rattle.std.specs.Prelude.{◌≡◌};
    ghost use Rattle.exports.specs.Answers.{of_change};

    ghost from_gives = { λ r a. a ≡ of_change r };

    fn from(res: Result<(), Fault>) -> Answer {
        match res {
            Ok(()) => Answer::default(),
            Err(fault) => Answer::from(fault),
        }
    }
}

impl From<Result<Verdict, Fault>> for Answer {
    ghost use Rattle.std.specs.Prelude.{◌≡◌};
    ghost use Rattle.exports.specs.Answers.{of_verdict};

    ghost from_gives = { λ r a. a ≡ of_verdict r };

    fn from(res: Result<Verdict, Fault>) -> Answer {
        match res {
            Ok(verdict) => {
                let f = Figures::from(verdict);
                Answer {
                    kind: 1,
                    number: f.kind,
                    left: f.left,
                    right: f.right,
                    side: f.side,
                    place: f.place,
                }
            }
            Err(fault) => Answer::from(fault),
        }
    }
}

impl From<Result<Option<Reply>, Fault>> for Answer {
    ghost use Rattle.std.specs.Prelude.{◌≡◌};
    ghost use Rattle.exports.specs.Answers.{of_reply};

    ghost from_gives = { λ r a. a ≡ of_reply r };

    fn from(res: Result<Option<Reply>, Fault>) -> Answer {
        let (number, left, place) = match res {
            Ok(Some(Reply::Stays)) => (0, 0, 0),
            Ok(Some(Reply::Moves(state, place))) => (1, state, place),
            Ok(None) => (2, 0, 0),
            Err(fault) => return Answer::from(fault),
        };
        Answer {
            kind: 2,
            number,
            left,
            place,
            ..Answer::default()
        }
    }
}
