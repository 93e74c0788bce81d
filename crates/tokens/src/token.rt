// What a line is made of: its letter, and its fields as marked parts of the text.
ghost use Rattle.std.specs.Prelude.{MatchResult, ◌≡◌, Some, None};
ghost use Rattle.tokens.specs.Forms.{letter_in};
ghost use Rattle.tokens.specs.Marks.{kind_told};

use std::error::Error;
use std::fmt;

// A field of a line: a part of the text, marked by what stands at its place.
#[derive(Clone, Copy, Debug, PartialEq, Eq)]
pub enum Token<'a> {
    Number(&'a [u8]),
    Set(&'a [u8]),
    Sign(&'a [u8]),
}

// The kind of a term, which its sign tells.
#[derive(Clone, Copy, Debug, PartialEq, Eq)]
pub enum Kind {
    Action,
    Deadlock,
    Variable,
    Choice,
    Sequence,
    Merge,
    LeftMerge,
    CommMerge,
    Block,
    Hide,
}

// What the letter of a line announces.
#[derive(Clone, Copy, Debug, PartialEq, Eq)]
pub enum Letter {
    Variables,
    Joins,
    Becomes,
    Ends,
    Gives,
    Starts,
}

// A line by its letter, with as many fields as the letter asks for.
#[derive(Clone, Copy, Debug, PartialEq, Eq)]
pub enum Form<'a> {
    Variables(Token<'a>),
    Joins(Token<'a>, Token<'a>, Token<'a>),
    Becomes(Token<'a>, Token<'a>, Token<'a>),
    Ends(Token<'a>, Token<'a>),
    Gives(Token<'a>, Kind, Token<'a>, Token<'a>),
    Starts(Token<'a>),
}

// A field that is no letter, or no sign of a kind.
#[derive(Clone, Copy, Debug, PartialEq, Eq)]
pub struct Unknown;

impl fmt::Display for Unknown {
    fn fmt<W: fmt::Write>(&self, f: &mut fmt::Formatter<W>) -> fmt::Result {
        f.write_str("an unknown letter or sign")
    }
}

impl Error for Unknown {}

impl TryFrom<&[u8]> for Letter {
    type Error = Unknown;

    ghost try_from_gives = { λ field r. MatchResult r (λ letter. letter_in field.now ≡ Some letter) (λ _. letter_in field.now ≡ None) };

    fn try_from(field: &[u8]) -> Result<Letter, Unknown> {
        match field {
            [b'm'] => Ok(Letter::Variables),
            [b'c'] => Ok(Letter::Joins),
            [b'e'] => Ok(Letter::Becomes),
            [b'f'] => Ok(Letter::Ends),
            [b't'] => Ok(Letter::Gives),
            [b'z'] => Ok(Letter::Starts),
            _ => Err(Unknown),
        }
    }
}

impl TryFrom<Token<'_>> for Kind {
    type Error = Unknown;

    ghost try_from_gives = { λ sign r. MatchResult r (λ kind. kind_told sign ≡ Some kind) (λ _. kind_told sign ≡ None) };

    fn try_from(sign: Token<'_>) -> Result<Kind, Unknown> {
        match sign {
            Token::Sign([b'a']) => Ok(Kind::Action),
            Token::Sign([b'd']) => Ok(Kind::Deadlock),
            Token::Sign([b'v']) => Ok(Kind::Variable),
            Token::Sign([b'+']) => Ok(Kind::Choice),
            Token::Sign([b'.']) => Ok(Kind::Sequence),
            Token::Sign([b'm']) => Ok(Kind::Merge),
            Token::Sign([b'l']) => Ok(Kind::LeftMerge),
            Token::Sign([b'j']) => Ok(Kind::CommMerge),
            Token::Sign([b'b']) => Ok(Kind::Block),
            Token::Sign([b'h']) => Ok(Kind::Hide),
            _ => Err(Unknown),
        }
    }
}
