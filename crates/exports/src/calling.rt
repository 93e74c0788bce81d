// A list of calls on a sheet.
ghost use Rattle.std.specs.Prelude.{◌≡◌, min, length};

use crate::answers::Answer;
use crate::building::{Bare, Joining, Parts, Rows, build, parts_of};
use crate::descriptions::Description;
use actions::communications::Communication;
use actions::ports::Ports;
use judging::calls::judge;
use judging::replies::{Ask, reply};
use models::merging::Merge;
use models::systems::TransitionSystem;
use pairings::besides::Beside;
use pairings::faults::Fault;
use pairings::flipping::Flipped;
use pairings::standing::Pairing;
use sheets::sheet::Sheet;
use transitions::lines::JoinLine;
use transitions::steps::Step;
use transitions::verdicts::Verdict;

// Kept: the kind is a number and models are named by flags, since calls cross to C.
// Kind 0 pairs, 1 unpairs, 2 judges, 3 judges without a pair, 4 replies; 5 judges and 6 replies with the sheet as a plain pairing; 7
// judges with the sides exchanged; any other judges both models merged by ports with the left one, beside the sheet. Those that look at
// models take the first two, or the other two where that is said. `marks` and `queue` are the entries lent, at most all.
#[repr(C)]
#[derive(Clone, Copy, Debug, PartialEq, Eq)]
pub struct Call {
    pub kind: u8,
    pub other_left: bool,
    pub other_right: bool,
    pub side: usize,
    pub s: usize,
    pub t: usize,
    pub place: usize,
    pub marks: usize,
    pub queue: usize,
}

// Both models merged by ports with the left one, which stands beside the pairing.
fn judge_beside<L: TransitionSystem, R: TransitionSystem, P: Pairing>(
    pairing: &P,
    left: &L,
    right: &R,
    marks: &mut [u8],
    queue: &mut [u16],
) -> Result<Verdict, Fault> {
    let first = Merge::new(left, left, Ports::new());
    let second = Merge::new(right, left, Ports::new());
    judge(&first, &second, &Beside::new(pairing, left), marks, queue)
}

// A call that looks at two models, in the scratch lent to it.
fn look<L: TransitionSystem, R: TransitionSystem>(
    sheet: &mut Sheet,
    left: &L,
    right: &R,
    call: Call,
    marks: &mut [u8],
    queue: &mut [u16],
) -> Answer {
    let ask = Ask {
        side: call.side,
        s: call.s,
        t: call.t,
        place: call.place,
    };
    match call.kind {
        2 => Answer::from(sheet.judge(left, right, marks, queue)),
        3 => Answer::from(sheet.without(left, right, call.s, call.t, marks, queue)),
        4 => Answer::from(sheet.reply(left, right, ask, marks, queue)),
        5 => Answer::from(judge(left, right, &*sheet, marks, queue)),
        6 => Answer::from(reply(left, right, &*sheet, ask, marks, queue)),
        7 => {
            let flipped = Flipped { pairing: &*sheet };
            Answer::from(judge(right, left, &flipped, marks, queue))
        }
        _ => Answer::from(judge_beside(sheet, left, right, marks, queue)),
    }
}

// Any call.
fn make<L: TransitionSystem, R: TransitionSystem>(
    sheet: &mut Sheet,
    left: &L,
    right: &R,
    call: Call,
    marks: &mut [u8],
    queue: &mut [u16],
) -> Answer {
    match call.kind {
        0 => Answer::from(sheet.pair(call.s, call.t)),
        1 => Answer::from(sheet.unpair(call.s, call.t)),
        _ => {
            let m = call.marks.min(marks.len());
            let q = call.queue.min(queue.len());
            look(sheet, left, right, call, &mut marks[0..m], &mut queue[0..q])
        }
    }
}

// One of each for the four models that a list of calls can name.
#[derive(Clone, Copy, Drop)]
pub struct Four<T> {
    left: T,
    right: T,
    other_left: T,
    other_right: T,
}

// A call with the two models that it names.
fn make_with<M: TransitionSystem>(
    sheet: &mut Sheet,
    models: &Four<M>,
    call: Call,
    marks: &mut [u8],
    queue: &mut [u16],
) -> Answer {
    let left = if call.other_left {
        &models.other_left
    } else {
        &models.left
    };
    let right = if call.other_right {
        &models.other_right
    } else {
        &models.right
    };
    make(sheet, left, right, call, marks, queue)
}

// Opens a sheet, makes every call, and tells how many were made.
fn make_all<M: TransitionSystem + Drop>(
    models: Four<M>,
    bytes: &mut [u8],
    marks: &mut [u8],
    queue: &mut [u16],
    calls: &[Call],
    answers: &mut [Answer],
) -> usize
    ensures { result ≡ min (length calls.now) (length answers.old) }
{
    let mut sheet = Sheet::open(bytes, &models.left, &models.right);
    for (answer, call) in answers.iter_mut().zip(calls) {
        *answer = make_with(&mut sheet, &models, *call, marks, queue);
    }
    calls.len().min(answers.len())
}

fn make_built<M: TransitionSystem + Copy, C: Communication + Copy>(
    d: &Four<Description>,
    parts: Four<Parts<M, C>>,
    bytes: &mut [u8],
    marks: &mut [u8],
    queue: &mut [u16],
    calls: &[Call],
    answers: &mut [Answer],
) -> usize
    ensures { result ≡ min (length calls.now) (length answers.old) }
{
    let models = Four {
        left: build(&d.left, parts.left),
        right: build(&d.right, parts.right),
        other_left: build(&d.other_left, parts.other_left),
        other_right: build(&d.other_right, parts.other_right),
    };
    make_all(models, bytes, marks, queue, calls, answers)
}

fn all_parts<'a, 'b, 'c>(
    d: &Four<Description>,
    rows: Rows<'a, 'b, 'c>,
) -> Four<Parts<Bare<'a, 'b>, Joining<'c>>> {
    Four {
        left: parts_of(&d.left, rows),
        right: parts_of(&d.right, rows),
        other_left: parts_of(&d.other_left, rows),
        other_right: parts_of(&d.other_right, rows),
    }
}

// Opens a sheet over lent bytes for the models `left` and `right`, makes every call of the list in order, and writes the answers, as
// far as that row goes. Tells how many calls were made.
#[unsafe(no_mangle)]
pub extern "C" fn dimityrock_calls(
    left: &Description,
    right: &Description,
    other_left: &Description,
    other_right: &Description,
    ends: &[u16],
    steps: &[Step],
    lines: &[JoinLine],
    bytes: &mut [u8],
    marks: &mut [u8],
    queue: &mut [u16],
    calls: &[Call],
    answers: &mut [Answer],
) -> usize
    ensures { result ≡ min (length calls.now) (length answers.old) }
{
    let d = Four {
        left: *left,
        right: *right,
        other_left: *other_left,
        other_right: *other_right,
    };
    let parts = all_parts(&d, Rows { ends, steps, lines });
    make_built(&d, parts, bytes, marks, queue, calls, answers)
}
