// The calls that a sheet takes, and what they answer.
use judging::replies::Ask;
use pairings::faults::Fault;
use transitions::replies::Reply;
use transitions::verdicts::Verdict;

// How many entries of the marks and of the queue a call is lent, at most all.
#[derive(Clone, Copy, Debug, PartialEq, Eq)]
pub struct Lent {
    pub marks: usize,
    pub queue: usize,
}

// A call with all that it is handed. Those that look at models have their own.
#[derive(Drop)]
pub enum Call<'a, L, R> {
    Pair {
        s: usize,
        t: usize,
    },
    Unpair {
        s: usize,
        t: usize,
    },
    Judge {
        left: &'a L,
        right: &'a R,
        lent: Lent,
    },
    Without {
        left: &'a L,
        right: &'a R,
        s: usize,
        t: usize,
        lent: Lent,
    },
    Reply {
        left: &'a L,
        right: &'a R,
        ask: Ask,
        lent: Lent,
    },
}

// Kept: four answers side by side; a `Result` over an enum of the other three would read no plainer in a row of answers.
#[derive(Clone, Copy, Debug, PartialEq, Eq)]
pub enum Answer {
    Done,
    Judged(Verdict),
    Replied(Option<Reply>),
    Refused(Fault),
}
