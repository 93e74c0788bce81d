// Judgements of large models on a sheet where each state stands with itself, so that their time can be taken. With no marks the
// judgement is refused, and what is left is the time of opening and pairing.
ghost use Rattle.std.specs.Prelude.{◌≡◌};
ghost use Rattle.exports.specs.Answers.{VerdictTold};

use crate::answers::Answer;
use crate::building::layer;
use crate::descriptions::Sets;
use actions::ports::Ports;
use models::counters::Counter;
use models::merging::Merge;
use models::systems::TransitionSystem;
use sheets::sheet::Sheet;
use tables::steps_table::Table;
use transitions::steps::Step;
use unfolding::counts::Counts;

fn judge_itself<M: TransitionSystem>(
    model: &M,
    bytes: &mut [u8],
    marks: &mut [u8],
    queue: &mut [u16],
) -> Answer
    ensures { VerdictTold result }
{
    let mut sheet = Sheet::open(bytes, model, model);
    for s in 0..model.states() {
        let _ = sheet.pair(s, s);
    }
    Answer::from(sheet.judge(model, model, marks, queue))
}

// A counter that takes by action 1 and gives by action 2, under the sets.
#[unsafe(no_mangle)]
pub extern "C" fn dimityrock_judge_counter(
    cap: usize,
    sets: &Sets,
    bytes: &mut [u8],
    marks: &mut [u8],
    queue: &mut [u16],
) -> Answer
    ensures { VerdictTold result }
{
    judge_itself(&layer(Counter::new(cap, 1, 2), *sets), bytes, marks, queue)
}

// Two such counters merged by ports, under the sets.
#[unsafe(no_mangle)]
pub extern "C" fn dimityrock_judge_merge(
    cap: usize,
    other: usize,
    sets: &Sets,
    bytes: &mut [u8],
    marks: &mut [u8],
    queue: &mut [u16],
) -> Answer
    ensures { VerdictTold result }
{
    let merge = Merge::new(
        Counter::new(cap, 1, 2),
        Counter::new(other, 2, 1),
        Ports::new(),
    );
    judge_itself(&layer(merge, *sets), bytes, marks, queue)
}

// A pile of six over counters of one cap: merged, blocked, hidden, merged with a third, blocked, hidden.
#[unsafe(no_mangle)]
pub extern "C" fn dimityrock_judge_pile(
    cap: usize,
    inner: &Sets,
    outer: &Sets,
    bytes: &mut [u8],
    marks: &mut [u8],
    queue: &mut [u16],
) -> Answer
    ensures { VerdictTold result }
{
    let merge = Merge::new(
        Counter::new(cap, 1, 2),
        Counter::new(cap, 2, 1),
        Ports::new(),
    );
    let pile = Merge::new(layer(merge, *inner), Counter::new(cap, 4, 5), Ports::new());
    judge_itself(&layer(pile, *outer), bytes, marks, queue)
}

// The table that stands in row ends and steps.
#[unsafe(no_mangle)]
pub extern "C" fn dimityrock_judge_table(
    ends: &[u16],
    steps: &[Step],
    terms: usize,
    count: usize,
    start: usize,
    bytes: &mut [u8],
    marks: &mut [u8],
    queue: &mut [u16],
) -> Answer
    ensures { VerdictTold result }
{
    let counts = Counts {
        terms,
        steps: count,
        start,
    };
    judge_itself(&Table::new(ends, steps, counts), bytes, marks, queue)
}
