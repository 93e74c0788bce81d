// The kinds of models, piled up.
use crate::wide::Wide;
use actions::ports::Ports;
use actions::sets::ActionSet;
use either::{Either, Left};
use models::blocking::Blocked;
use models::counters::Counter;
use models::following::follow;
use models::hiding::Hidden;
use models::merging::Merge;
use models::systems::TransitionSystem;

// The action and the target at a place, or the action 255 where there is no step.
fn at<M: TransitionSystem>(model: &M, state: usize, place: usize) -> (u8, u16) {
    match model.step(state, place) {
        Some(step) => (step.action, step.target),
        None => (255, 0),
    }
}

#[test]
fn counter_answers(rt: HostRuntime) {
    let counter = Counter::new(2, 1, 2);
    assert_eq!(rt; at(&counter, 0, 0), (1, 1));
    assert_eq!(rt; at(&counter, 0, 1), (255, 0));
    assert_eq!(rt; at(&counter, 2, 0), (255, 0));
    assert_eq!(rt; at(&counter, 2, 1), (2, 1));
    assert_eq!(rt; at(&counter, 1, 2), (255, 0), "a place out of range");
    assert_eq!(rt; at(&counter, 3, 1), (255, 0), "a state out of range");
    assert!(rt; counter.may_end(0) && !counter.may_end(1) && !counter.may_end(3));
}

#[test]
fn set_kinds_answer(rt: HostRuntime) {
    let counter = Counter::new(2, 1, 2);
    let blocked = Blocked::new(&counter, ActionSet::new(2));
    assert_eq!(rt;
        at(&blocked, 1, 0),
        (255, 0),
        "a blocked step leaves its place free"
    );
    assert_eq!(rt; at(&blocked, 1, 1), (2, 0));
    let hidden = Hidden::new(&counter, ActionSet::new(2));
    assert_eq!(rt; at(&hidden, 1, 0), (0, 2), "a hidden step is silent");
    assert_eq!(rt; at(&hidden, 1, 1), (2, 0));
}

// A merge over any model, in a field of a struct that asks of the model only what a model is.
#[derive(Drop)]
struct Pile<M: TransitionSystem> {
    merge: Merge<Blocked<M>, Counter, Ports>,
}

#[test]
fn held_merge_answers(rt: HostRuntime) {
    let blocked = Blocked::new(Counter::new(1, 1, 2), ActionSet::new(2));
    let pile = Pile {
        merge: Merge::new(blocked, Counter::new(1, 2, 1), Ports::new()),
    };
    assert_eq!(rt; pile.merge.states(), 4);
    assert_eq!(rt; at(&pile.merge, 0, 0), (255, 0), "the left is blocked");
    assert_eq!(rt; at(&pile.merge, 0, 2), (2, 1), "the right takes");
}

#[test]
fn merge_answers(rt: HostRuntime) {
    let merge = Merge::new(Counter::new(1, 1, 2), Counter::new(1, 2, 1), Ports::new());
    assert_eq!(rt; merge.states(), 4);
    assert_eq!(rt; merge.width(), 8);
    assert_eq!(rt; at(&merge, 0, 0), (1, 2), "the left takes");
    assert_eq!(rt; at(&merge, 0, 2), (2, 1), "the right takes");
    assert_eq!(rt;
        at(&merge, 0, 4),
        (3, 3),
        "both at once, to the joint action"
    );
    assert_eq!(rt; at(&merge, 0, 5), (255, 0));
    assert_eq!(rt; at(&merge, 4, 0), (255, 0));
    assert!(rt; merge.may_end(0) && !merge.may_end(1) && !merge.may_end(2) && !merge.may_end(4));
}

#[test]
fn piles_answer(rt: HostRuntime) {
    let merge = Merge::new(Counter::new(1, 1, 2), Counter::new(1, 2, 1), Ports::new());
    let pile = Hidden::new(Blocked::new(merge, ActionSet::new(6)), ActionSet::new(8));
    assert_eq!(rt; at(&pile, 0, 0), (255, 0));
    assert_eq!(rt;
        at(&pile, 0, 4),
        (0, 3),
        "partners join before anything is blocked"
    );
    let one: Either<Counter, Wide> = Left(Counter::new(2, 1, 2));
    assert_eq!(rt; one.states(), 3);
    assert_eq!(rt; follow(&one, 1, 9).turns, 2);
    assert_eq!(rt; follow(&one, 1, 1).state, 1);
    assert_eq!(rt; follow(&one, 3, 9).turns, 0);
}
