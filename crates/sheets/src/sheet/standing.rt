// The pairs that stand on a sheet.
ghost use Rattle.std.specs.Prelude.{◌≡◌, ◌/◌, ◌<◌, length};
ghost use Rattle.pairings.specs.Next.{Next};
ghost use Rattle.sheets.specs.Gaps.{Gap};
ghost use Rattle.sheets.specs.Sheets.{stood, standing as pairs, rows_of, columns_of};

use crate::sheet::Sheet;
use crate::size::Size;
use pairings::standing::Pairing;

// Whether the pair (s, t) stands in the bytes of a sheet that keeps these sizes.
pub(crate) fn stands_in(bytes: &[u8], size: Size, s: usize, t: usize) -> bool
    ensures { result ≡ stood size bytes.now s t }
{
    let size = size.within(bytes.len());
    if !size.has(s, t) {
        return false;
    }
    let i = s * size.columns as usize + t;
    (bytes[i / 8] >> (i % 8)) & 1 == 1
}

// How many bits from bit i on are known to be 0: none where it is 1, and else the rest of its byte or the bit alone.
fn gap(bytes: &[u8], i: usize) -> usize
    requires { i / 8 < length bytes.now }
    ensures { Gap bytes.now i result }
{
    let rest = bytes[i / 8] >> (i % 8);
    if rest == 0 {
        return 8 - i % 8;
    }
    if rest & 1 == 1 { 0 } else { 1 }
}

// The lowest right state from `from` on and below `below` that stands with s. The rest of a byte that is 0 is passed at once.
pub(crate) fn next_in(
    bytes: &[u8],
    size: Size,
    s: usize,
    from: usize,
    below: usize,
) -> Option<usize>
    ensures { Next (stood size bytes.now s) from below result }
{
    let fitted = size.within(bytes.len());
    if s >= fitted.rows as usize {
        return None;
    }
    let end = below.min(fitted.columns as usize);
    // Kept: the step changes from turn to turn, which no range does; a `find` over all states would lose the jump over bytes.
    let mut t = from;
    while t < end {
        let passed = gap(bytes, s * fitted.columns as usize + t);
        if passed == 0 {
            return Some(t);
        }
        t += passed;
    }
    None
}

impl<'a> Sheet<'a> {
    // The left size, 0 where the sheet is blank.
    pub fn rows(&self) -> usize
        ensures { result ≡ rows_of self.now }
    {
        self.size.within(self.bytes.len()).rows as usize
    }

    // The right size, 0 where the sheet is blank.
    pub fn columns(&self) -> usize
        ensures { result ≡ columns_of self.now }
    {
        self.size.within(self.bytes.len()).columns as usize
    }
}

impl Pairing for Sheet<'_> {
    ghost standing = { pairs };

    fn stands(&self, s: usize, t: usize) -> bool {
        stands_in(self.bytes, self.size, s, t)
    }

    fn next_standing(&self, s: usize, from: usize, below: usize) -> Option<usize> {
        next_in(self.bytes, self.size, s, from, below)
    }
}
