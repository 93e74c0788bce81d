// The five questions to a model.
ghost use Rattle.std.specs.Prelude.{◌≡◌, min, length};
ghost use Rattle.exports.specs.Asking.{Tells};

use crate::building::{Parts, Rows, build, parts_of};
use crate::descriptions::Description;
use actions::communications::Communication;
use models::systems::TransitionSystem;
use transitions::lines::JoinLine;
use transitions::steps::Step;

// A state and a place to ask about.
#[repr(C)]
#[derive(Clone, Copy, Debug, PartialEq, Eq)]
pub struct Question {
    pub state: usize,
    pub place: usize,
}

// Kept: whether there is a step is a flag beside it, since what is told crosses to C.
// What a model answers: its sizes and start, whether the state may end, and the step at the place, all 0 where there is none.
#[repr(C)]
#[derive(Clone, Copy, Debug, PartialEq, Eq)]
pub struct Told {
    pub states: usize,
    pub start: usize,
    pub width: usize,
    pub ends: bool,
    pub steps: bool,
    pub action: u8,
    pub target: u16,
}

fn tell<M: TransitionSystem>(model: &M, question: Question) -> Told
    ensures { Tells (M.TransitionSystem.meaning model.now) question result }
{
    let step = model.step(question.state, question.place);
    let found = step.is_some();
    let at = step.unwrap_or_default();
    Told {
        states: model.states(),
        start: model.start(),
        width: model.width(),
        ends: model.may_end(question.state),
        steps: found,
        action: at.action,
        target: at.target,
    }
}

// Asks a model each question, as far as the row of answers goes, and tells how many were asked.
fn tell_all<M: TransitionSystem + Drop>(
    model: M,
    questions: &[Question],
    told: &mut [Told],
) -> usize
    ensures { result ≡ min (length questions.now) (length told.old) }
{
    for (answer, question) in told.iter_mut().zip(questions) {
        *answer = tell(&model, *question);
    }
    questions.len().min(told.len())
}

fn ask_built<M: TransitionSystem + Copy, C: Communication + Copy>(
    model: &Description,
    parts: Parts<M, C>,
    questions: &[Question],
    told: &mut [Told],
) -> usize
    ensures { result ≡ min (length questions.now) (length told.old) }
{
    tell_all(build(model, parts), questions, told)
}

// Asks the model of a description each question, as far as the row of answers goes, and tells how many were asked.
#[unsafe(no_mangle)]
pub extern "C" fn dimityrock_ask(
    model: &Description,
    ends: &[u16],
    steps: &[Step],
    lines: &[JoinLine],
    questions: &[Question],
    told: &mut [Told],
) -> usize
    ensures { result ≡ min (length questions.now) (length told.old) }
{
    let parts = parts_of(model, Rows { ends, steps, lines });
    ask_built(model, parts, questions, told)
}
