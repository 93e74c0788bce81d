// Why a call is refused.
ghost use Rattle.std.specs.Prelude.{◌≡◌};
ghost use Rattle.pairings.specs.Faults.{number};

use std::error::Error;
use std::fmt;

#[derive(Clone, Copy, PartialEq, Eq, Debug)]
pub enum Fault {
    // A state is not below its size.
    NoState = 21,
    // The marks or the queue are shorter than the larger size.
    Short = 22,
    // The side is neither 0 nor 1.
    NoSide = 23,
    // The place holds no step.
    NoStep = 24,
    // The sheet is blank, or a judged model is empty.
    Blank = 31,
    // The pair stands already.
    Stands = 32,
    // The pair does not stand.
    Missing = 33,
    // The models' sizes are not the sheet's.
    Sizes = 34,
}

impl Fault {
    pub fn number(self) -> u8
        ensures { result ≡ number self }
    {
        self as u8
    }
}

impl fmt::Display for Fault {
    fn fmt<W: fmt::Write>(&self, f: &mut fmt::Formatter<W>) -> fmt::Result {
        f.write_str(match self {
            Fault::NoState => "a state is not below its size",
            Fault::Short => "the marks or the queue are shorter than the larger size",
            Fault::NoSide => "the side is neither 0 nor 1",
            Fault::NoStep => "the place holds no step",
            Fault::Blank => "the sheet is blank, or a judged model is empty",
            Fault::Stands => "the pair stands already",
            Fault::Missing => "the pair does not stand",
            Fault::Sizes => "the models' sizes are not the sheet's",
        })
    }
}

impl Error for Fault {}
