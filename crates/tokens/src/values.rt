// The numbers and sets that tokens hold.
ghost use Rattle.std.specs.Prelude.{◌≡◌, ◌<◌, ◌≤◌, true, false, length, Some, None, IfSome};
ghost use Rattle.tokens.specs.Numbers.{plain, all_digits, value_on, number, hex_value, hex_on, set};
ghost use Rattle.tokens.specs.Forms.{values};
ghost use Rattle.tokens.specs.Marks.{value_of, shape_of, Marked, IsNumber};

use super::said::Said;
use super::token::{Form, Token};

// Whether there is a byte, and no leading zero before another.
fn is_plain(bytes: &[u8]) -> bool
    ensures { result ≡ plain bytes.now }
{
    match bytes {
        [] => false,
        [_] => true,
        [b, ..] => *b != b'0',
    }
}

// The value of at most five digits.
fn digits_of(bytes: &[u8]) -> Option<u32>
    requires { length bytes.now ≤ 5 }
    ensures { elim result [
      | Some v ↦ (all_digits bytes.now ≡ true) × (value_on 0 bytes.now ≡ v) × (v < 100000)
      | None ↦ all_digits bytes.now ≡ false
    ] }
{
    let mut v = 0u32;
    for b in bytes {
        if !b.is_ascii_digit() {
            return None;
        }
        v = 10 * v + u32::from(b - b'0');
    }
    Some(v)
}

// One to five digits with no leading zero, 0 itself excepted.
fn number_of(bytes: &[u8]) -> Option<u32>
    ensures { number bytes.now ≡ result }
{
    if !is_plain(bytes) || bytes.len() > 5 {
        return None;
    }
    digits_of(bytes)
}

fn hex_digit(b: u8) -> Option<u8>
    ensures is { hex_value b ≡ result }
    ensures small { IfSome result (λ d. d < 16) }
{
    match b {
        b'0'..=b'9' => Some(b - b'0'),
        b'a'..=b'f' => Some(b - b'a' + 10),
        _ => None,
    }
}

// The value of at most sixteen hexadecimal digits.
fn hex_of(bytes: &[u8]) -> Option<u64>
    requires { length bytes.now ≤ 16 }
    ensures { hex_on 0 bytes.now ≡ result }
{
    let mut v = 0u64;
    for b in bytes {
        v = 16 * v + u64::from(hex_digit(*b)?);
    }
    Some(v)
}

// Sixteen hexadecimal digits.
fn set_of(bytes: &[u8]) -> Option<u64>
    ensures { set bytes.now ≡ result }
{
    if bytes.len() != 16 {
        return None;
    }
    hex_of(bytes)
}

// The number in a token that is marked as one.
fn number_in(t: Token) -> Option<u32>
    ensures { IsNumber t.entry → value_of t.entry ≡ result }
{
    match t {
        Token::Number(bytes) => number_of(bytes),
        Token::Set(_) | Token::Sign(_) => None,
    }
}

// The number or set in a token, by its mark.
fn value_in(t: Token) -> Option<u64>
    ensures { value_of t.entry ≡ result }
{
    match t {
        Token::Number(bytes) => number_of(bytes).map(u64::from),
        Token::Set(bytes) => set_of(bytes),
        Token::Sign(_) => None,
    }
}

// What a line of the form says, if each field is a number or a set.
pub fn said_of(form: Form) -> Option<Said>
    ensures { Marked form.entry → values (shape_of form.entry) ≡ result }
{
    Some(match form {
        Form::Variables(v) => Said::Variables(number_in(v)?),
        Form::Joins(a, b, r) => Said::Joins(number_in(a)?, number_in(b)?, number_in(r)?),
        Form::Becomes(x, a, y) => Said::Becomes(number_in(x)?, number_in(a)?, number_in(y)?),
        Form::Ends(x, a) => Said::Ends(number_in(x)?, number_in(a)?),
        Form::Gives(n, kind, p, q) => Said::Gives(number_in(n)?, kind, number_in(p)?, value_in(q)?),
        Form::Starts(n) => Said::Starts(number_in(n)?),
    })
}
