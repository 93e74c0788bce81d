// The form of a line: its letter, its fields and, for a term, its kind.
ghost use Rattle.std.specs.Prelude.{◌≡◌, IfSome};
ghost use Rattle.tokens.specs.Lines.{fields, whole};
ghost use Rattle.tokens.specs.Forms.{shape_by, shape};
ghost use Rattle.tokens.specs.Marks.{Is, text, shape_of, Marked, SecondMarked};
ghost use Rattle.tokens.specs.declared.token.Letter.TheVariants.{Gives};

use super::cutting::{next_field, one_field, three_fields, two_fields};
use super::token::{Form, Kind, Letter, Token};

// The second operand of a term: a set for blocking and hiding, else a number.
fn second_token(kind: Kind, bytes: &[u8]) -> Token<'_>
    ensures same { text result ≡ bytes.now }
    ensures marked { SecondMarked kind result }
{
    match kind {
        Kind::Block | Kind::Hide => Token::Set(bytes),
        _ => Token::Number(bytes),
    }
}

fn term_form(rest: &[u8]) -> Option<Form<'_>>
    ensures is { Is shape_of result (shape_by Gives (fields rest.now)) }
    ensures marks { IfSome result Marked }
{
    let (n, rest) = next_field(rest)?;
    let (sign, p, q) = three_fields(rest)?;
    let kind = Kind::try_from(Token::Sign(sign)).ok()?;
    Some(Form::Gives(
        Token::Number(n),
        kind,
        Token::Number(p),
        second_token(kind, q),
    ))
}

// The fields of a line behind its letter, each with the mark of its place.
fn form_by(letter: Letter, rest: &[u8]) -> Option<Form<'_>>
    ensures is { Is shape_of result (shape_by letter (fields rest.now)) }
    ensures marks { IfSome result Marked }
{
    match letter {
        Letter::Variables => {
            let v = one_field(rest)?;
            Some(Form::Variables(Token::Number(v)))
        }
        Letter::Joins => {
            let (a, b, r) = three_fields(rest)?;
            Some(Form::Joins(Token::Number(a), Token::Number(b), Token::Number(r)))
        }
        Letter::Becomes => {
            let (x, a, y) = three_fields(rest)?;
            Some(Form::Becomes(Token::Number(x), Token::Number(a), Token::Number(y)))
        }
        Letter::Ends => {
            let (x, a) = two_fields(rest)?;
            Some(Form::Ends(Token::Number(x), Token::Number(a)))
        }
        Letter::Gives => term_form(rest),
        Letter::Starts => {
            let n = one_field(rest)?;
            Some(Form::Starts(Token::Number(n)))
        }
    }
}

// The form of a finished line.
pub fn form_of(line: &[u8]) -> Option<Form<'_>>
    ensures is { Is shape_of result (shape (whole line.now)) }
    ensures marks { IfSome result Marked }
{
    let (letter, rest) = next_field(line)?;
    form_by(Letter::try_from(letter).ok()?, rest)
}
