// What follows from the sizes of a sheet.
ghost use Rattle.std.specs.Prelude.{◌≡◌};
ghost use Rattle.sheets.specs.Bits.{needed};
ghost use Rattle.sheets.specs.Calls.{blank, in_range};
ghost use Rattle.sheets.specs.Sheets.{in_force};

use crate::size::Size;

impl Size {
    // The bytes that the pairs need.
    pub(crate) fn needed(self) -> usize
        ensures { result ≡ needed self.rows self.columns }
    {
        (self.rows as usize * self.columns as usize + 7) / 8
    }

    // The sizes where so many bytes suffice, else 0 by 0.
    pub(crate) fn within(self, bytes: usize) -> Size
        ensures rows { result.rows ≡ in_force self bytes self.rows }
        ensures columns { result.columns ≡ in_force self bytes self.columns }
    {
        if self.needed() <= bytes {
            self
        } else {
            Size {
                rows: 0,
                columns: 0,
            }
        }
    }

    pub(crate) fn is_blank(self) -> bool
        ensures { result ≡ blank self.rows self.columns }
    {
        self.rows == 0 || self.columns == 0
    }

    pub(crate) fn has(self, s: usize, t: usize) -> bool
        ensures { result ≡ in_range self.rows self.columns s t }
    {
        s < self.rows as usize && t < self.columns as usize
    }
}
