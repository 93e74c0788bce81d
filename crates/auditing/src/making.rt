// One call of any kind.
ghost use Rattle.std.specs.Prelude.{◌≡◌, max, length};
ghost use Rattle.auditing.specs.Plain.{next};
ghost use Rattle.auditing.specs.Telling.{Tells, JudgeTells, WithoutTells, ReplyTells, of_change, LeftBy};
ghost use Rattle.sheets.specs.Sheets.{standing as pairs, rows_of, columns_of, Kept};

use crate::calls::{Answer, Call, Lent};
use judging::replies::Ask;
use models::systems::TransitionSystem;
use pairings::faults::Fault;
use sheets::sheet::Sheet;

// What pair and unpair tell.
fn answer_of_change(change: Result<(), Fault>) -> Answer
    ensures { result ≡ of_change change }
{
    change.map_or_else(Answer::Refused, |()| Answer::Done)
}

// Kept: the three cuts of the scratch: a function that returns such a part of a row gets no proof of what it lends.

// The verdict, in the part of the scratch that is lent.
fn judge_lent<L: TransitionSystem, R: TransitionSystem>(
    sheet: &Sheet,
    left: &L,
    right: &R,
    lent: Lent,
    marks: &mut [u8],
    queue: &mut [u16],
) -> Answer
    ensures tells { JudgeTells (rows_of sheet.now) (columns_of sheet.now) (record { marks = length marks.entry.now; queue = length queue.old }) (pairs sheet.now) (L.TransitionSystem.meaning left.now) (R.TransitionSystem.meaning right.now) lent result }
    ensures marks { LeftBy result (max (rows_of sheet.now) (columns_of sheet.now)) marks.old marks.new }
    ensures queue { LeftBy result (max (rows_of sheet.now) (columns_of sheet.now)) queue.old queue.new }
{
    let m = lent.marks.min(marks.len());
    let q = lent.queue.min(queue.len());
    let verdict = sheet.judge(left, right, &mut marks[..m], &mut queue[..q]);
    verdict.map_or_else(Answer::Refused, Answer::Judged)
}

// The verdict with a pair out, in the part of the scratch that is lent.
fn without_lent<L: TransitionSystem, R: TransitionSystem>(
    sheet: &mut Sheet,
    left: &L,
    right: &R,
    s: usize,
    t: usize,
    lent: Lent,
    marks: &mut [u8],
    queue: &mut [u16],
) -> Answer
    ensures kept { Kept sheet.old sheet.new }
    ensures after { pairs sheet.new ≡ pairs sheet.old }
    ensures tells { WithoutTells (rows_of sheet.old) (columns_of sheet.old) (record { marks = length marks.entry.now; queue = length queue.old }) (pairs sheet.old) (L.TransitionSystem.meaning left.now) (R.TransitionSystem.meaning right.now) s t lent result }
    ensures marks { LeftBy result (max (rows_of sheet.old) (columns_of sheet.old)) marks.old marks.new }
    ensures queue { LeftBy result (max (rows_of sheet.old) (columns_of sheet.old)) queue.old queue.new }
{
    let m = lent.marks.min(marks.len());
    let q = lent.queue.min(queue.len());
    let verdict = sheet.without(left, right, s, t, &mut marks[..m], &mut queue[..q]);
    verdict.map_or_else(Answer::Refused, Answer::Judged)
}

// The reply, in the part of the scratch that is lent.
fn reply_lent<L: TransitionSystem, R: TransitionSystem>(
    sheet: &Sheet,
    left: &L,
    right: &R,
    ask: Ask,
    lent: Lent,
    marks: &mut [u8],
    queue: &mut [u16],
) -> Answer
    ensures tells { ReplyTells (rows_of sheet.now) (columns_of sheet.now) (record { marks = length marks.entry.now; queue = length queue.old }) (pairs sheet.now) (L.TransitionSystem.meaning left.now) (R.TransitionSystem.meaning right.now) ask lent result }
    ensures marks { LeftBy result (max (rows_of sheet.now) (columns_of sheet.now)) marks.old marks.new }
    ensures queue { LeftBy result (max (rows_of sheet.now) (columns_of sheet.now)) queue.old queue.new }
{
    let m = lent.marks.min(marks.len());
    let q = lent.queue.min(queue.len());
    let reply = sheet.reply(left, right, ask, &mut marks[..m], &mut queue[..q]);
    reply.map_or_else(Answer::Refused, Answer::Replied)
}

// Makes the call, and tells its answer.
pub(crate) fn make<L: TransitionSystem, R: TransitionSystem>(
    sheet: &mut Sheet,
    call: &Call<'_, L, R>,
    marks: &mut [u8],
    queue: &mut [u16],
) -> Answer
    ensures kept { Kept sheet.old sheet.new }
    ensures after { pairs sheet.new ≡ next (rows_of sheet.old) (columns_of sheet.old) (pairs sheet.old) call.now }
    ensures tells { Tells L.TransitionSystem.meaning R.TransitionSystem.meaning (rows_of sheet.old) (columns_of sheet.old) (record { marks = length marks.entry.now; queue = length queue.old }) (pairs sheet.old) call.now result }
    ensures marks { LeftBy result (max (rows_of sheet.old) (columns_of sheet.old)) marks.old marks.new }
    ensures queue { LeftBy result (max (rows_of sheet.old) (columns_of sheet.old)) queue.old queue.new }
{
    match call {
        Call::Pair { s, t } => answer_of_change(sheet.pair(*s, *t)),
        Call::Unpair { s, t } => answer_of_change(sheet.unpair(*s, *t)),
        Call::Judge { left, right, lent } => {
            judge_lent(sheet, *left, *right, *lent, marks, queue)
        }
        Call::Without {
            left,
            right,
            s,
            t,
            lent,
        } => { without_lent(sheet, *left, *right, *s, *t, *lent, marks, queue) }
        Call::Reply {
            left,
            right,
            ask,
            lent,
        } => { reply_lent(sheet, *left, *right, *ask, *lent, marks, queue) }
    }
}
