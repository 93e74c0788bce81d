// The fault of a line: the first that applies.
ghost use Rattle.std.specs.Prelude.{◌≤◌, OnOk};
ghost use Rattle.transitions.specs.Listed.{Once};
ghost use Rattle.modelfile.specs.Computed.{early_tests, late_tests, start_tests};
ghost use Rattle.modelfile.specs.State.{turn_after, Finds, Narrow};

use super::entries::{Entry, entry_of};
use super::faults::Fault;
use super::filling::{Filling, Section};
use super::limits::{has_wrong_number, is_out_of_turn, is_over_limit, section_of, uses_silent};
use acceptance::rings::has_no_ring;
use actions::grouping::is_associative;
use processes::equations::Equation;
use tokens::forms::form_of;
use tokens::said::Said;
use tokens::values::said_of;
use transitions::lines::JoinLine;

// The first fault of the numbers that are said: 4 to 7.
fn check_said(last: Option<Section>, variables: u32, terms: usize, said: Said) -> Result<(), Fault>
    requires variables_few { variables ≤ 256 }
    requires terms_few { terms ≤ 256 }
    ensures finds { Finds (early_tests (turn_after last) variables terms said) result }
    ensures narrow { OnOk result (Narrow said) }
{
    if is_out_of_turn(last, section_of(said)) {
        return Err(Fault::OutOfTurn);
    }
    if is_over_limit(variables, said) {
        return Err(Fault::OverLimit);
    }
    if has_wrong_number(terms, said) {
        return Err(Fault::WrongNumber);
    }
    if uses_silent(said) {
        return Err(Fault::SilentUsed);
    }
    Ok(())
}

// The first fault at the start line: 10 and 11.
fn check_start(lines: &[JoinLine], equations: &[Equation]) -> Result<(), Fault>
    requires { Once lines.now }
    ensures { Finds (start_tests lines.now equations.now) result }
{
    if !is_associative(lines) {
        return Err(Fault::NotAssociative);
    }
    if !has_no_ring(equations) {
        return Err(Fault::SilentRing);
    }
    Ok(())
}

impl Filling<'_> {
    ghost use Rattle.modelfile.specs.State.{seen, room_of, Fits, SaidJudged, LineJudged};

    // The first fault of the entry: 8 to 11.
    fn check_entry(&self, entry: Entry) -> Result<(), Fault>
        ensures finds { Finds (late_tests (room_of self.now) (seen self.now) entry) result }
        ensures fits { OnOk result (Fits self.now entry) }
    {
        if self.is_said_before(entry) {
            return Err(Fault::SaidBefore);
        }
        if self.is_too_many(entry) {
            return Err(Fault::TooMany);
        }
        match entry {
            Entry::Starts(_) => check_start(
                &self.lines[..self.line_count],
                &self.equations[..self.equation_count],
            ),
            _ => Ok(()),
        }
    }

    // The entry that is said, or the first fault of what is said.
    fn judge_said(&self, said: Said) -> Result<Entry, Fault>
        ensures { SaidJudged self.now said result }
    {
        check_said(self.section, self.variables, self.term_count, said)?;
        let entry = entry_of(said);
        self.check_entry(entry)?;
        Ok(entry)
    }

    // The entry that a finished line adds, or the first fault of the line.
    pub(crate) fn judge_line(&self, text: &[u8]) -> Result<Entry, Fault>
        ensures { LineJudged self.now text.now result }
    {
        let form = form_of(text).ok_or(Fault::NoForm)?;
        let said = said_of(form).ok_or(Fault::NoValue)?;
        self.judge_said(said)
    }
}
