// The verdict on a pairing: a match, or the first condition of a match that is broken.

#[derive(Clone, Copy, Debug, PartialEq, Eq)]
pub enum Side {
    Left,
    Right,
}

impl Side {
    ghost use Rattle.std.specs.Prelude.{◌≡◌};
    ghost use Rattle.transitions.specs.Verdict.{side_number};

    // Left is 0, right is 1.
    pub fn number(self) -> u8
        ensures { result ≡ side_number self }
    {
        self as u8
    }
}

// A broken condition of a match, with the left and the right state, the side whose step or end has no answer, and the place
// of the step.
#[derive(Clone, Copy, Debug, PartialEq, Eq)]
pub enum Counterexample {
    // The two starts are not paired.
    StartMissing(usize, usize),
    // A step of one state of a pair is not answered by the other state.
    StepUnanswered(usize, usize, Side, usize),
    // One state of a pair may end, and the other may not after silent steps.
    EndUnanswered(usize, usize, Side),
    // A step of one start is not answered by one step of the other start.
    RootUnanswered(usize, usize, Side, usize),
}

// Ok is a match.
pub type Verdict = Result<(), Counterexample>;

// A verdict as five numbers, unused ones 0.
// Kept: kind and side are numbers here, since these five are what is printed and what crosses to C.
#[derive(Clone, Copy, Debug, PartialEq, Eq, Default)]
pub struct Figures {
    pub kind: u8,
    pub left: usize,
    pub right: usize,
    pub side: u8,
    pub place: usize,
}

// A match is kind 0, a missing start pair 1, a step unanswered 2, an end unanswered 3, a root step unanswered 4.
impl From<Verdict> for Figures {
    ghost use Rattle.std.specs.Prelude.{◌≡◌};
    ghost use Rattle.transitions.specs.Verdict.{figures};

    ghost from_gives = { λ v f. f ≡ figures v };

    fn from(verdict: Verdict) -> Figures {
        let Err(counterexample) = verdict else {
            return Figures::default();
        };
        match counterexample {
            Counterexample::StartMissing(left, right) => Figures {
                kind: 1,
                left,
                right,
                ..Figures::default()
            },
            Counterexample::StepUnanswered(left, right, side, place) => Figures {
                kind: 2,
                left,
                right,
                side: side.number(),
                place,
            },
            Counterexample::EndUnanswered(left, right, side) => Figures {
                kind: 3,
                left,
                right,
                side: side.number(),
                ..Figures::default()
            },
            Counterexample::RootUnanswered(left, right, side, place) => Figures {
                kind: 4,
                left,
                right,
                side: side.number(),
                place,
            },
        }
    }
}
