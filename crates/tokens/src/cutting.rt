// Lines cut at their line feeds, and fields cut at their commas.
ghost use Rattle.std.specs.Prelude.{◌≡◌, ◌<◌, ◌∷◌, ◌++◌, [], false, length, ◌==◌, ◌≢◌, position, All, IfSome, IfNone};
ghost use Rattle.tokens.specs.Lines.{raw_lines, last_piece, fields, whole};

// Where the byte first stands.
fn place_of(bytes: &[u8], byte: u8) -> Option<usize>
    ensures { result ≡ position (λ b. b == byte) bytes.now }
{
    bytes.iter().position(|&b| b == byte)
}

// What stands before the first separator, and what follows it.
fn split_once(bytes: &[u8], separator: u8) -> Option<(&[u8], &[u8])>
    ensures parts { IfSome result (λ p. bytes.now ≡ p.0.now ++ separator ∷ p.1.now) }
    ensures first { IfSome result (λ p. All (λ b. (b == separator) ≡ false) p.0.now) }
    ensures none { IfNone result (All (λ b. (b == separator) ≡ false) bytes.now) }
{
    let at = place_of(bytes, separator)?;
    Some((&bytes[..at], &bytes[at + 1..]))
}

// The next line, and what follows its line feed. Where there is no line feed, the bytes are the last piece of a text, or nothing.
pub fn next_line(bytes: &[u8]) -> Option<(&[u8], &[u8])>
    ensures line { IfSome result (λ p. raw_lines bytes.now ≡ whole p.0.now ∷ raw_lines p.1.now) }
    ensures shorter { IfSome result (λ p. length p.1.now < length bytes.now) }
    ensures last { IfNone result (raw_lines bytes.now ≡ last_piece bytes.now) }
{
    split_once(bytes, b'\n')
}

// The first field, and what follows its comma.
pub(crate) fn next_field(line: &[u8]) -> Option<(&[u8], &[u8])>
    ensures field { IfSome result (λ p. fields line.now ≡ p.0.now ∷ fields p.1.now) }
    ensures more { IfSome result (λ p. 0 < length (fields p.1.now)) }
    ensures last { IfNone result (fields line.now ≡ line.now ∷ []) }
{
    split_once(line, b',')
}

// The only field.
pub(crate) fn one_field(line: &[u8]) -> Option<&[u8]>
    ensures { elim result [
      | Some f ↦ fields line.now ≡ f.now ∷ []
      | None ↦ length (fields line.now) ≢ 1
    ] }
{
    next_field(line).is_none().then_some(line)
}

// The two fields.
pub(crate) fn two_fields(line: &[u8]) -> Option<(&[u8], &[u8])>
    ensures { elim result [
      | Some p ↦ fields line.now ≡ p.0.now ∷ p.1.now ∷ []
      | None ↦ length (fields line.now) ≢ 2
    ] }
{
    let (f, rest) = next_field(line)?;
    Some((f, one_field(rest)?))
}

// The three fields.
// Kept: one function for any count, `fields_of::<N>` with the result `[&[u8]; N]`, gets no proof: an array of references has none yet.
pub(crate) fn three_fields(line: &[u8]) -> Option<(&[u8], &[u8], &[u8])>
    ensures { elim result [
      | Some p ↦ fields line.now ≡ p.0.now ∷ p.1.now ∷ p.2.now ∷ []
      | None ↦ length (fields line.now) ≢ 3
    ] }
{
    let (f, rest) = next_field(line)?;
    let (g, h) = two_fields(rest)?;
    Some((f, g, h))
}
