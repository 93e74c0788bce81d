// A line: a letter and three numbers, parted by commas and ended by a line feed.
ghost use Rattle.std.specs.Prelude.{◌≡◌, ◌<◌, ◌≤◌, ◌++◌, length, drop, Decides, IsNone, IfSome, IfNone, ◌↔◌};
ghost use Rattle.texts.specs.Lines.{line_of};

use crate::numbers::{digits, put_field};

#[derive(Clone, Copy, Debug, PartialEq, Eq)]
pub struct Line {
    pub letter: u8,
    pub numbers: [u16; 3],
}

impl Line {
    // How long the line is: its digits, a letter, three commas and a line feed.
    pub fn length(&self) -> usize
        ensures long { result ≡ length (line_of self.now) }
        ensures most { result ≤ 20 }
    {
        let [x, y, z] = self.numbers;
        digits(x) + digits(y) + digits(z) + 5
    }

    // Whether the line has so much room. The longest line has 20 bytes: none is counted where there is room for that.
    fn fits(&self, room: usize) -> bool
        ensures { Decides result (length (line_of self.now) ≤ room) }
    {
        // No number has more than five digits.
        let [_x, _y, _z] = self.numbers;
        room >= 20 || room >= self.length()
    }

    // Writes the line at the front of the buffer, and answers where it ends. Where it does not fit, the buffer stays.
    pub fn write(&self, out: &mut [u8]) -> Option<usize>
        ensures written { IfSome result (λ end. out.new ≡ line_of self.now ++ drop end out.old) }
        ensures ends { IfSome result (λ end. end ≡ length (line_of self.now)) }
        ensures kept { IfNone result (out.new ≡ out.old) }
        ensures refused { IsNone result ↔ (length out.old < length (line_of self.now)) }
    {
        if !self.fits(out.len()) {
            return None;
        }
        let [x, y, z] = self.numbers;
        out[0] = self.letter;
        let after_x = put_field(out, 1, x);
        let after_y = put_field(out, after_x, y);
        let after_z = put_field(out, after_y, z);
        out[after_z] = b'\n';
        Some(after_z + 1)
    }
}
