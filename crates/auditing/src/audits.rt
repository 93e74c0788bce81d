// A new sheet, any list of calls on it, and then what it says of two models.
ghost use Rattle.std.specs.Prelude.{cond, length};
ghost use Rattle.auditing.specs.Promise.{Audited, rows_for, columns_for};

use crate::calls::{Answer, Call};
use crate::making::make;
use judging::replies::Ask;
use models::systems::TransitionSystem;
use pairings::faults::Fault;
use sheets::sheet::Sheet;
use transitions::replies::Reply;
use transitions::verdicts::Verdict;

// The last question: two models to judge, and a step of one of them to reply to.
#[derive(Drop)]
pub struct Question<'a, 'b, A, B> {
    pub left: &'a A,
    pub right: &'b B,
    pub ask: Ask,
}

// What a sheet said of two models.
#[derive(Clone, Copy, Debug, PartialEq, Eq)]
pub struct Said {
    pub verdict: Result<Verdict, Fault>,
    pub reply: Result<Option<Reply>, Fault>,
}

// Opens a sheet for two models over lent bytes, makes every call of the list in order, refused ones too, each with its own models
// and its part of the scratch, and writes their answers into a lent row, as far as that goes. Then it judges the two models of the
// question and asks them for a reply.
pub fn audit<
    'a,
    L: TransitionSystem,
    R: TransitionSystem,
    A: TransitionSystem,
    B: TransitionSystem,
>(
    bytes: &'a mut [u8],
    first: &L,
    second: &R,
    calls: &[Call<'_, L, R>],
    answers: &mut [Answer],
    question: &Question<'_, '_, A, B>,
    marks: &mut [u8],
    queue: &mut [u16],
    said: &mut Said,
) -> Sheet<'a>
    ensures { Audited L.TransitionSystem.meaning R.TransitionSystem.meaning bytes.entry (rows_for (L.TransitionSystem.meaning first.now) (R.TransitionSystem.meaning second.now) (length bytes.old)) (columns_for (L.TransitionSystem.meaning first.now) (R.TransitionSystem.meaning second.now) (length bytes.old)) calls.now (A.TransitionSystem.meaning question.now.left.now) (B.TransitionSystem.meaning question.now.right.now) question.now.ask (record { marks = marks.entry.now; queue = queue.old }) (record { marks = marks.exit.now; queue = queue.new }) answers.new said.new result }
{
    let mut sheet = Sheet::open(bytes, first, second);
    for (i, call) in calls.iter().enumerate() {
        let answer = make(&mut sheet, call, marks, queue);
        // Kept: after a write through `answers.get_mut(i)` a proof no longer knows the other answers.
        if i < answers.len() {
            answers[i] = answer;
        }
    }
    let left = question.left;
    let right = question.right;
    let verdict = sheet.judge(left, right, marks, queue);
    let reply = sheet.reply(left, right, question.ask, marks, queue);
    *said = Said { verdict, reply };
    sheet
}
