// The opening of a sheet.
ghost use Rattle.sheets.specs.Calls.{Opened};

use crate::bits::clear;
use crate::sheet::Sheet;
use crate::size::Size;
use models::systems::TransitionSystem;

impl<'a> Sheet<'a> {
    // A sheet for the pairs of two models, on which nothing stands: exactly the bytes that it needs are cleared. Where a model is
    // empty or the bytes are too few, the sheet is blank and the bytes stay.
    pub fn open<L: TransitionSystem, R: TransitionSystem>(
        bytes: &'a mut [u8],
        left: &L,
        right: &R,
    ) -> Sheet<'a>
        ensures { Opened (L.TransitionSystem.meaning left.now) (R.TransitionSystem.meaning right.now) bytes.entry result }
    {
        let size = Size {
            rows: left.states() as u16,
            columns: right.states() as u16,
        };
        let needed = size.needed();
        if size.is_blank() || needed > bytes.len() {
            return Sheet {
                bytes,
                size: Size {
                    rows: 0,
                    columns: 0,
                },
            };
        }
        clear(bytes, needed);
        Sheet { bytes, size }
    }
}
