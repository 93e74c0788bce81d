// The judgements of a sheet.
ghost use Rattle.std.specs.Prelude.{◌≡◌};
ghost use Rattle.judging.specs.Judged.{Judged, Checks};
ghost use Rattle.judging.specs.Replies.{Replied};
ghost use Rattle.sheets.specs.Calls.{unfit, unpaired, judge_refusal, reply_refusal, JudgedWithout};
ghost use Rattle.sheets.specs.Sheets.{standing as pairs, rows_of, columns_of};

use crate::sheet::Sheet;
use crate::sheet::lifting::judge_without;
use judging::calls::{check_scratch, judge};
use judging::replies::{Ask, reply};
use models::systems::TransitionSystem;
use pairings::faults::Fault;
use pairings::standing::Pairing;
use transitions::replies::Reply;
use transitions::verdicts::Verdict;

impl<'a> Sheet<'a> {
    // Refuses two models that cannot be judged on this sheet.
    fn check_models<L: TransitionSystem, R: TransitionSystem>(
        &self,
        left: &L,
        right: &R,
    ) -> Result<(), Fault>
        ensures { Checks (unfit (rows_of self.now) (columns_of self.now) (L.TransitionSystem.meaning left.now) (R.TransitionSystem.meaning right.now)) result }
    {
        let size = self.size.within(self.bytes.len());
        if size.is_blank() {
            return Err(Fault::Blank);
        }
        if left.states() != size.rows as usize || right.states() != size.columns as usize {
            return Err(Fault::Sizes);
        }
        Ok(())
    }

    // Refuses a pair that cannot be left out.
    fn check_pair(&self, s: usize, t: usize) -> Result<(), Fault>
        ensures { Checks (unpaired (rows_of self.now) (columns_of self.now) (pairs self.now) s t) result }
    {
        if !self.size.within(self.bytes.len()).has(s, t) {
            return Err(Fault::NoState);
        }
        if !self.stands(s, t) {
            return Err(Fault::Missing);
        }
        Ok(())
    }

    // The verdict on the standing pairs. Refused with the first that holds: the sheet is blank, the models' sizes are not its own,
    // the marks or the queue are shorter than the larger size.
    pub fn judge<L: TransitionSystem, R: TransitionSystem>(
        &self,
        left: &L,
        right: &R,
        marks: &mut [u8],
        queue: &mut [u16],
    ) -> Result<Verdict, Fault>
        ensures { Judged (judge_refusal self.now (L.TransitionSystem.meaning left.now) (R.TransitionSystem.meaning right.now) (record { marks = marks.entry.now; queue = queue.old })) (L.TransitionSystem.meaning left.now) (R.TransitionSystem.meaning right.now) (pairs self.now) (record { marks = marks.entry.now; queue = queue.old }) (record { marks = marks.exit.now; queue = queue.new }) result }
    {
        self.check_models(left, right)?;
        judge(left, right, self, marks, queue)
    }

    // The verdict with the pair (s, t) out; the sheet stays. Refused as `judge` is, and then with the first that holds: a state is
    // not below its size, the pair does not stand.
    pub fn without<L: TransitionSystem, R: TransitionSystem>(
        &mut self,
        left: &L,
        right: &R,
        s: usize,
        t: usize,
        marks: &mut [u8],
        queue: &mut [u16],
    ) -> Result<Verdict, Fault>
        ensures { JudgedWithout self.old self.new (L.TransitionSystem.meaning left.now) (R.TransitionSystem.meaning right.now) s t (record { marks = marks.entry.now; queue = queue.old }) (record { marks = marks.exit.now; queue = queue.new }) result }
    {
        self.check_models(left, right)?;
        check_scratch(left, right, marks, queue)?;
        self.check_pair(s, t)?;
        let size = self.size;
        judge_without(left, right, self.bytes, size, s, t, marks, queue)
    }

    // The reply to a step. Refused as `judge` is, and then with the first that holds: the side is neither 0 nor 1, a state is not
    // below its size, the pair does not stand, the place holds no step.
    pub fn reply<L: TransitionSystem, R: TransitionSystem>(
        &self,
        left: &L,
        right: &R,
        ask: Ask,
        marks: &mut [u8],
        queue: &mut [u16],
    ) -> Result<Option<Reply>, Fault>
        ensures { Replied (reply_refusal self.now (L.TransitionSystem.meaning left.now) (R.TransitionSystem.meaning right.now) (record { marks = marks.entry.now; queue = queue.old }) ask) (L.TransitionSystem.meaning left.now) (R.TransitionSystem.meaning right.now) (pairs self.now) ask (record { marks = marks.entry.now; queue = queue.old }) (record { marks = marks.exit.now; queue = queue.new }) result }
    {
        self.check_models(left, right)?;
        reply(left, right, self, ask, marks, queue)
    }
}
