// Numbers written in decimal digits.
ghost use Rattle.std.specs.Prelude.{◌≡◌, ◌+◌, ◌/◌, ◌%◌, ◌<◌, ◌≤◌, [], ◌∷◌, ◌++◌, length, take, drop, decimal};

// How many digits the number has.
#[tactic(auto, using(crate::proofs::Digits::steps))]
pub(crate) fn digits(number: u16) -> usize
    ensures count { result ≡ length (decimal number) }
    ensures most { result ≤ 5 }
{
    if number < 10 {
        1
    } else {
        digits(number / 10) + 1
    }
}

// Writes both digits of a number below 100 at `at`, where there is room for them.
fn put_pair(out: &mut [u8], at: usize, number: u16)
    requires small { number < 100 }
    requires room { at + 2 ≤ length out.old }
    ensures { out.new ≡ take at out.old ++ ((48 + number / 10) ∷ (48 + number % 10) ∷ []) ++ drop (at + 2) out.old }
{
    out[at] = b'0' + (number / 10) as u8;
    out[at + 1] = b'0' + (number % 10) as u8;
}

// Writes the number at `at`, where there is room for it, and answers where it ends.
#[tactic(auto, using(crate::proofs::Digits::counts))]
fn put_number(out: &mut [u8], at: usize, number: u16) -> usize
    requires { at + length (decimal number) ≤ length out.old }
    ensures ends { result ≡ at + length (decimal number) }
    ensures written { out.new ≡ take at out.old ++ decimal number ++ drop result out.old }
{
    if number < 10 {
        out[at] = b'0' + number as u8;
        return at + 1;
    }
    if number < 100 {
        put_pair(out, at, number);
        return at + 2;
    }
    let end = put_number(out, at, number / 100);
    put_pair(out, end, number % 100);
    end + 2
}

// Writes a comma and the number at `at`, where there is room for them, and answers where they end.
// A number of one digit, as in most small tables, is written without a call.
#[tactic(auto, using(crate::proofs::Digits::counts))]
pub(crate) fn put_field(out: &mut [u8], at: usize, number: u16) -> usize
    requires { at + 1 + length (decimal number) ≤ length out.old }
    ensures ends { result ≡ at + 1 + length (decimal number) }
    ensures written { out.new ≡ take at out.old ++ (44 ∷ decimal number) ++ drop result out.old }
{
    out[at] = b',';
    if number < 10 {
        out[at + 1] = b'0' + number as u8;
        return at + 2;
    }
    put_number(out, at + 1, number)
}
