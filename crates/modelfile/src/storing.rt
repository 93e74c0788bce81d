// An entry put behind what stands in the rows.
ghost use Rattle.modelfile.specs.State.{Small};

use super::entries::Entry;
use super::filling::{Filling, Section};

impl Filling<'_> {
    ghost use Rattle.modelfile.specs.State.{Fits, Stores};

    // The entry goes behind the last one of its row.
    pub(crate) fn store(&mut self, entry: Entry)
        requires small { Small entry }
        requires fits { Fits self.old entry }
        ensures { Stores self.old entry self.new }
    {
        match entry {
            Entry::Variables(v) => {
                self.section = Some(Section::Variables);
                self.variables = v;
            }
            Entry::Joins(l) => {
                self.section = Some(Section::Joins);
                self.lines[self.line_count] = l;
                self.line_count += 1;
            }
            Entry::Does(e) => {
                self.section = Some(Section::Equations);
                self.equations[self.equation_count] = e;
                self.equation_count += 1;
            }
            Entry::Gives(t) => {
                self.section = Some(Section::Terms);
                self.terms[self.term_count] = t;
                self.term_count += 1;
            }
            Entry::Starts(_) => self.section = Some(Section::Start),
        }
    }
}
