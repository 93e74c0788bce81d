// Lists of mixed calls over counters, their answers written out by hand.
use crate::small::Small;
use auditing::audits::{Question, Said, audit};
use auditing::calls::{Answer, Call, Lent};
use judging::replies::Ask;
use pairings::faults::Fault;
use transitions::replies::Reply;
use transitions::verdicts::{Figures, Verdict};

fn of_verdict(verdict: Verdict) -> usize {
    100 + Figures::from(verdict).kind as usize
}

fn of_reply(reply: Option<Reply>) -> usize {
    match reply {
        Some(Reply::Stays) => 200,
        Some(Reply::Moves(state, place)) => {
            if state < 10 && place < 10 {
                300 + 10 * state + place
            } else {
                999
            }
        }
        None => 400,
    }
}

// 0 for done, the number of a refusal, 100 and the kind of a verdict, 200 for a reply that stays, 300 and the state and the place
// of one that moves, 400 for none.
fn figure(answer: Answer) -> usize {
    match answer {
        Answer::Done => 0,
        Answer::Judged(verdict) => of_verdict(verdict),
        Answer::Replied(reply) => of_reply(reply),
        Answer::Refused(fault) => fault.number() as usize,
    }
}

fn last_verdict(said: &Said) -> usize {
    match said.verdict {
        Ok(verdict) => of_verdict(verdict),
        Err(fault) => fault.number() as usize,
    }
}

fn last_reply(said: &Said) -> usize {
    match said.reply {
        Ok(reply) => of_reply(reply),
        Err(fault) => fault.number() as usize,
    }
}

fn ask(side: usize, s: usize, t: usize, place: usize) -> Ask {
    Ask { side, s, t, place }
}

// A model of two states and one of three, first a missing start, then half a match, then a match.
fn mixed<'a>(
    one: &'a Small,
    two: &'a Small,
    answers: &mut [Answer],
    marks: &mut [u8],
    queue: &mut [u16],
    said: &mut Said,
) {
    let all = Lent { marks: 2, queue: 2 };
    let few = Lent { marks: 2, queue: 1 };
    let calls = [
        Call::Judge {
            left: one,
            right: one,
            lent: all,
        },
        Call::Pair { s: 0, t: 0 },
        Call::Pair { s: 0, t: 0 },
        Call::Pair { s: 2, t: 0 },
        Call::Unpair { s: 1, t: 1 },
        Call::Judge {
            left: one,
            right: one,
            lent: all,
        },
        Call::Reply {
            left: one,
            right: one,
            ask: ask(0, 0, 0, 0),
            lent: all,
        },
        Call::Pair { s: 1, t: 1 },
        Call::Judge {
            left: one,
            right: one,
            lent: all,
        },
        Call::Reply {
            left: one,
            right: one,
            ask: ask(0, 0, 0, 0),
            lent: all,
        },
        Call::Reply {
            left: one,
            right: one,
            ask: ask(2, 0, 0, 0),
            lent: all,
        },
        Call::Reply {
            left: one,
            right: one,
            ask: ask(0, 0, 0, 1),
            lent: all,
        },
        Call::Judge {
            left: one,
            right: one,
            lent: few,
        },
        Call::Judge {
            left: two,
            right: one,
            lent: all,
        },
        Call::Without {
            left: one,
            right: one,
            s: 1,
            t: 1,
            lent: all,
        },
    ];
    let mut bytes = [255u8; 1];
    let question = Question {
        left: one,
        right: one,
        ask: ask(1, 1, 1, 1),
    };
    let _sheet = audit(
        &mut bytes, one, one, &calls, answers, &question, marks, queue, said,
    );
}

#[test]
fn two_counters(rt: HostRuntime) {
    let one = Small { three: false };
    let two = Small { three: true };
    let mut answers = [Answer::Done; 15];
    let mut marks = [7u8; 3];
    let mut queue = [7u16; 3];
    let mut said = Said {
        verdict: Err(Fault::Blank),
        reply: Err(Fault::Blank),
    };
    mixed(&one, &two, &mut answers, &mut marks, &mut queue, &mut said);
    assert_eq!(rt; figure(answers[0]), 101, "the start pair is missing");
    assert_eq!(rt; figure(answers[1]), 0);
    assert_eq!(rt; figure(answers[2]), 32);
    assert_eq!(rt; figure(answers[3]), 21);
    assert_eq!(rt; figure(answers[4]), 33);
    assert_eq!(rt; figure(answers[5]), 102, "no step leads to a standing pair");
    assert_eq!(rt; figure(answers[6]), 400);
    assert_eq!(rt; figure(answers[7]), 0);
    assert_eq!(rt; figure(answers[8]), 100);
    assert_eq!(rt; figure(answers[9]), 300);
    assert_eq!(rt; figure(answers[10]), 23);
    assert_eq!(rt; figure(answers[11]), 24);
    assert_eq!(rt; figure(answers[12]), 22);
    assert_eq!(rt; figure(answers[13]), 34);
    assert_eq!(rt; figure(answers[14]), 102);
    assert_eq!(rt; last_verdict(&said), 100);
    assert_eq!(rt; last_reply(&said), 311);
    assert_eq!(rt; marks[1], 0);
    assert_eq!(rt; marks[2], 7, "beyond the larger size nothing is touched");
}
