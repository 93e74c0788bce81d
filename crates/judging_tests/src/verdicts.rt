// Every kind of counterexample, on both sides.
use actions::sets::ActionSet;
use models::blocking::Blocked;
use models::counters::Counter;
use models::hiding::Hidden;
use models::systems::TransitionSystem;
use pairings::faults::Fault;
use sheets::sheet::Sheet;
use transitions::verdicts::{Figures, Verdict};

// The kind with the states, and the side with the place; a refusal by its number.
fn told(answer: Result<Verdict, Fault>) -> ((u8, usize, usize), (u8, usize)) {
    match answer {
        Ok(verdict) => {
            let f = Figures::from(verdict);
            ((f.kind, f.left, f.right), (f.side, f.place))
        }
        Err(fault) => ((fault.number(), 0, 0), (0, 0)),
    }
}

// The verdict on some pairs.
fn judged<L: TransitionSystem, R: TransitionSystem>(
    left: &L,
    right: &R,
    pairs: &[(usize, usize)],
) -> ((u8, usize, usize), (u8, usize)) {
    let mut bytes = [255u8; 2];
    let mut marks = [1u8; 8];
    let mut queue = [1u16; 8];
    let mut sheet = Sheet::open(&mut bytes, left, right);
    for &(s, t) in pairs {
        let _ = sheet.pair(s, t);
    }
    told(sheet.judge(left, right, &mut marks, &mut queue))
}

#[test]
fn matches(rt: HostRuntime) {
    let counter = Counter::new(1, 1, 2);
    assert_eq!(rt;
        judged(&counter, &counter, &[(0, 0), (1, 1)]),
        ((0, 0, 0), (0, 0))
    );
    assert_eq!(rt;
        judged(&counter, &counter, &[(1, 1)]),
        ((1, 0, 0), (0, 0)),
        "no start pair"
    );
}

#[test]
fn steps(rt: HostRuntime) {
    let still = Counter::new(0, 1, 2);
    let counter = Counter::new(1, 1, 2);
    assert_eq!(rt; judged(&counter, &still, &[(0, 0)]), ((2, 0, 0), (0, 0)));
    assert_eq!(rt; judged(&still, &counter, &[(0, 0)]), ((2, 0, 0), (1, 0)));
    assert_eq!(rt;
        judged(&counter, &counter, &[(0, 0), (1, 0), (1, 1)]),
        ((2, 1, 0), (0, 1))
    );
}

#[test]
fn ends(rt: HostRuntime) {
    let still = Counter::new(0, 1, 2);
    let stuck = Blocked::new(Counter::new(1, 1, 2), ActionSet::new(6));
    assert_eq!(rt;
        judged(&still, &stuck, &[(0, 0), (0, 1)]),
        ((3, 0, 1), (0, 0))
    );
    assert_eq!(rt;
        judged(&stuck, &still, &[(0, 0), (1, 0)]),
        ((3, 1, 0), (1, 0))
    );
}

#[test]
fn roots(rt: HostRuntime) {
    let still = Counter::new(0, 1, 2);
    let silent = Hidden::new(Counter::new(1, 1, 2), ActionSet::new(6));
    assert_eq!(rt;
        judged(&silent, &still, &[(0, 0), (1, 0)]),
        ((4, 0, 0), (0, 0))
    );
    assert_eq!(rt;
        judged(&still, &silent, &[(0, 0), (0, 1)]),
        ((4, 0, 0), (1, 0))
    );
    assert_eq!(rt;
        judged(&silent, &silent, &[(0, 0), (1, 1)]),
        ((0, 0, 0), (0, 0))
    );
}
