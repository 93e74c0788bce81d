// Verdicts and replies on the models of two files.
use crate::unfolded::unfold_file;
use judging::replies::Ask;
use models::systems::TransitionSystem;
use pairings::faults::Fault;
use pairings::standing::Pairing;
use sheets::sheet::Sheet;
use transitions::replies::Reply;
use transitions::verdicts::{Figures, Verdict};
use worked::files::File;

// What is asked of a sheet.
#[derive(Clone, Copy)]
enum Call {
    Judge,
    Without(usize, usize),
    Reply(Ask),
}

// Five numbers. A verdict by its figures: the kind and the states, the side and the place. A reply that stays is 5, one that moves
// is 6 with the state and the place, none is 7. A refusal is its number.
type Numbers = ((u8, usize, usize), (u8, usize));

fn of_verdict(answer: Result<Verdict, Fault>) -> Numbers {
    match answer {
        Ok(verdict) => {
            let f = Figures::from(verdict);
            ((f.kind, f.left, f.right), (f.side, f.place))
        }
        Err(fault) => ((fault.number(), 0, 0), (0, 0)),
    }
}

fn of_reply(answer: Result<Option<Reply>, Fault>) -> Numbers {
    match answer {
        Ok(Some(Reply::Stays)) => ((5, 0, 0), (0, 0)),
        Ok(Some(Reply::Moves(state, place))) => ((6, state, 0), (0, place)),
        Ok(None) => ((7, 0, 0), (0, 0)),
        Err(fault) => ((fault.number(), 0, 0), (0, 0)),
    }
}

// The answer to a call on a sheet with these pairs.
fn answer<L: TransitionSystem, R: TransitionSystem>(
    left: &L,
    right: &R,
    pairs: &[(usize, usize)],
    call: Call,
) -> Numbers {
    let mut bytes = [255u8; 4];
    let mut marks = [1u8; 8];
    let mut queue = [1u16; 8];
    let mut sheet = Sheet::open(&mut bytes, left, right);
    for &(s, t) in pairs {
        let _ = sheet.pair(s, t);
    }
    match call {
        Call::Judge => of_verdict(sheet.judge(left, right, &mut marks, &mut queue)),
        Call::Without(s, t) => of_verdict(sheet.without(left, right, s, t, &mut marks, &mut queue)),
        Call::Reply(ask) => of_reply(sheet.reply(left, right, ask, &mut marks, &mut queue)),
    }
}

// The same on the models of two files.
fn between(left: File, right: File, pairs: &[(usize, usize)], call: Call) -> Option<Numbers> {
    let left = unfold_file(left.bytes())?;
    let right = unfold_file(right.bytes())?;
    Some(answer(&left.table(), &right.table(), pairs, call))
}

#[test]
fn merged_against_a_sequence(rt: HostRuntime) {
    let pairs = [(1, 0), (2, 2), (4, 1), (5, 1), (6, 0)];
    assert_eq!(rt;
        between(File::Merged, File::Twice, &pairs, Call::Judge),
        Some(((2, 1, 0), (0, 0)))
    );
}

#[test]
fn silent_middle(rt: HostRuntime) {
    let pairs = [(0, 0), (3, 2), (4, 2), (5, 3)];
    assert_eq!(rt;
        between(File::SilentMiddle, File::NoMiddle, &pairs, Call::Judge),
        Some(((0, 0, 0), (0, 0))),
        "a match"
    );
    assert_eq!(rt;
        between(
            File::SilentMiddle,
            File::NoMiddle,
            &pairs,
            Call::Without(3, 2),
        ),
        Some(((2, 4, 2), (0, 0))),
        "one pair out"
    );
    let right = Ask {
        side: 1,
        s: 4,
        t: 2,
        place: 0,
    };
    assert_eq!(rt;
        between(
            File::SilentMiddle,
            File::NoMiddle,
            &pairs,
            Call::Reply(right),
        ),
        Some(((6, 3, 0), (0, 0))),
        "the left state moves to 3"
    );
    let left = Ask {
        side: 0,
        s: 4,
        t: 2,
        place: 0,
    };
    assert_eq!(rt;
        between(
            File::SilentMiddle,
            File::NoMiddle,
            &pairs,
            Call::Reply(left),
        ),
        Some(((5, 0, 0), (0, 0))),
        "the right state stays"
    );
}

#[test]
fn silent_start(rt: HostRuntime) {
    let pairs = [(0, 0), (2, 1), (3, 1)];
    assert_eq!(rt;
        between(File::SilentStart, File::OneAction, &pairs, Call::Judge),
        Some(((4, 3, 1), (0, 0)))
    );
}
