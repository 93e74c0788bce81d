// The public call.
ghost use Rattle.std.specs.Prelude.{◌≡◌, max, None};
ghost use Rattle.judging.specs.Judged.{Judged, Checks, refusal, too_short};

use crate::comparison::Comparison;
use models::systems::TransitionSystem;
use pairings::faults::Fault;
use pairings::standing::Pairing;
use transitions::verdicts::Verdict;

// Refuses marks or a queue that are shorter than the larger size.
pub fn check_scratch<L: TransitionSystem, R: TransitionSystem>(
    left: &L,
    right: &R,
    marks: &[u8],
    queue: &[u16],
) -> Result<(), Fault>
    ensures { Checks (too_short (L.TransitionSystem.meaning left.now) (R.TransitionSystem.meaning right.now) (record { marks = marks.entry.now; queue = queue.now })) result }
{
    let n = left.states().max(right.states());
    if marks.len() < n || queue.len() < n {
        return Err(Fault::Short);
    }
    Ok(())
}

// Refuses models that cannot be judged, and scratch of these lengths that is too short for them.
pub(crate) fn check_ready<L: TransitionSystem, R: TransitionSystem>(
    left: &L,
    right: &R,
    marks: &[u8],
    queue: &[u16],
) -> Result<(), Fault>
    ensures { Checks (refusal (L.TransitionSystem.meaning left.now) (R.TransitionSystem.meaning right.now) (record { marks = marks.entry.now; queue = queue.now })) result }
{
    if left.states() == 0 || right.states() == 0 {
        return Err(Fault::Blank);
    }
    check_scratch(left, right, marks, queue)
}

// The verdict on the pairing of two models: a match exactly when the standing pairs are one, else the first broken condition.
// Refused where a model is empty, then where the marks or the queue are shorter than the larger size. After a verdict the first
// entries of both, as many as the larger size, are 0.
pub fn judge<L: TransitionSystem, R: TransitionSystem, P: Pairing>(
    left: &L,
    right: &R,
    pairing: &P,
    marks: &mut [u8],
    queue: &mut [u16],
) -> Result<Verdict, Fault>
    ensures { Judged (refusal (L.TransitionSystem.meaning left.now) (R.TransitionSystem.meaning right.now) (record { marks = marks.entry.now; queue = queue.old })) (L.TransitionSystem.meaning left.now) (R.TransitionSystem.meaning right.now) (P.standing pairing.now) (record { marks = marks.entry.now; queue = queue.old }) (record { marks = marks.exit.now; queue = queue.new }) result }
{
    check_ready(left, right, marks, queue)?;
    let n = left.states().max(right.states());
    let comparison = Comparison {
        left,
        right,
        pairing,
    };
    Ok(comparison.judge_in(&mut marks[..n], &mut queue[..n]))
}
