// Why a file is refused.
ghost use Rattle.std.specs.Prelude.{◌≡◌};
ghost use Rattle.modelfile.specs.Faults.{number_of};

use std::error::Error;
use std::fmt;

#[derive(Clone, Copy, Debug, PartialEq, Eq)]
pub enum Fault {
    // The file is too long.
    TooLong = 1,
    // No line feed, an unknown letter or sign, or a wrong count of fields.
    NoForm = 2,
    // A field is not a number or set.
    NoValue = 3,
    // The line is out of turn.
    OutOfTurn = 4,
    // A count, action or variable is over its limit, or an unused field is not 0.
    OverLimit = 5,
    // A term's number is not the next, or an operand or the start is no earlier term.
    WrongNumber = 6,
    // The silent action takes part in a communication, or stands in a set.
    SilentUsed = 7,
    // The line says what an earlier one said.
    SaidBefore = 8,
    // There are more lines than the limit, or than the entries handed over.
    TooMany = 9,
    // The communication is not associative.
    NotAssociative = 10,
    // Silent lines run in a ring.
    SilentRing = 11,
    // The file ends without its start line, or goes on after it.
    WrongEnd = 12,
}

impl Fault {
    // The number of the refusal.
    pub fn number(self) -> u8
        ensures { result ≡ number_of self }
    {
        self as u8
    }
}

impl fmt::Display for Fault {
    fn fmt<W: fmt::Write>(&self, f: &mut fmt::Formatter<W>) -> fmt::Result {
        f.write_str(match self {
            Fault::TooLong => "the file has over 32,768 bytes",
            Fault::NoForm =>
                "the line has no line feed, an unknown letter or sign, or a wrong count of fields",
            Fault::NoValue => "a field is not the number or the set that belongs there",
            Fault::OutOfTurn =>
                "the line is out of turn: m comes first, then c, then e and f, then t, and z last",
            Fault::OverLimit =>
                "a count, an action or a variable is over its limit, or a field without a use is not 0",
            Fault::WrongNumber =>
                "the number of the term is not the next one, or it names a term that was not given before",
            Fault::SilentUsed => "action 0 stands in a communication or in a set",
            Fault::SaidBefore => "an earlier line says this already",
            Fault::TooMany => "there are more lines of this kind than the limit",
            Fault::NotAssociative => "the communication of the c lines is not associative",
            Fault::SilentRing => "silent e lines lead from a variable back to itself",
            Fault::WrongEnd => "the file ends without its z line, or goes on after it",
        })
    }
}

impl Error for Fault {}
