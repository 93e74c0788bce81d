// The calls that change one pair of a sheet.
ghost use Rattle.sheets.specs.Calls.{Numbers, Paired, Unpaired};
ghost use Rattle.sheets.specs.Sheets.{rows_of, columns_of};

use crate::bits::{put_bit, take_bit};
use crate::sheet::Sheet;
use pairings::faults::Fault;
use pairings::standing::Pairing;

impl<'a> Sheet<'a> {
    // The number of the pair's bit. Refused with the first that holds: the sheet is blank, a state is not below its size.
    fn bit_of(&self, s: usize, t: usize) -> Result<usize, Fault>
        ensures { Numbers (rows_of self.now) (columns_of self.now) s t result }
    {
        let size = self.size.within(self.bytes.len());
        if size.is_blank() {
            return Err(Fault::Blank);
        }
        if !size.has(s, t) {
            return Err(Fault::NoState);
        }
        Ok(s * size.columns as usize + t)
    }

    // Puts the pair (s, t) on the sheet. Refused, and then nothing changes, with the first that holds: the sheet is blank, a state
    // is not below its size, the pair stands already.
    pub fn pair(&mut self, s: usize, t: usize) -> Result<(), Fault>
        ensures { Paired self.old self.new s t result }
    {
        let i = self.bit_of(s, t)?;
        if self.stands(s, t) {
            return Err(Fault::Stands);
        }
        put_bit(self.bytes, i);
        Ok(())
    }

    // Takes the pair (s, t) off the sheet. Refused, and then nothing changes, with the first that holds: the sheet is blank, a
    // state is not below its size, the pair does not stand.
    pub fn unpair(&mut self, s: usize, t: usize) -> Result<(), Fault>
        ensures { Unpaired self.old self.new s t result }
    {
        let i = self.bit_of(s, t)?;
        if !self.stands(s, t) {
            return Err(Fault::Missing);
        }
        take_bit(self.bytes, i);
        Ok(())
    }
}
