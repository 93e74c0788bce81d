// Pairing the states of the rule and a till by the passes sold, and judging the pairs.
use crate::tills::CAP;
use models::systems::TransitionSystem;
use pairings::faults::Fault;
use sheets::sheet::Sheet;
use std::io;
use transitions::verdicts::{Counterexample, Side, Verdict};

// The two tills: one is two baskets alone, the other keeps a count for the booking beside them.
#[derive(Clone, Copy, Debug, PartialEq, Eq)]
pub enum Baskets {
    Alone,
    Booked,
}

impl Baskets {
    // The state of the till in which the baskets hold i and j passes.
    fn state(self, i: usize, j: usize) -> usize {
        let alone = i.saturating_mul(CAP + 1).saturating_add(j);
        match self {
            Baskets::Alone => alone,
            Baskets::Booked => alone
                .saturating_mul(CAP + 1)
                .saturating_add(i.saturating_add(j)),
        }
    }
}

// Pairs each state of the rule with the states of the till in which as many passes are sold.
fn pair_by_sales(sheet: &mut Sheet, baskets: Baskets) -> Result<usize, Fault> {
    let mut count: usize = 0;
    for i in 0..=CAP {
        for j in 0..=CAP - i {
            sheet.pair(i + j, baskets.state(i, j))?;
            count = count.saturating_add(1);
        }
    }
    Ok(count)
}

fn tell_step(
    rt: &HostRuntime,
    note: u8,
    rule: &impl TransitionSystem,
    till: &impl TransitionSystem,
    s: usize,
    t: usize,
    side: Side,
    place: usize,
) -> io::Result<()> {
    println!(rt;
        "{note}. Judged: no match. The rule stands in state {s} and the till in state {t}, which are paired."
    )?;
    let (name, other, step) = match side {
        Side::Left => ("rule", "till", rule.step(s, place)),
        Side::Right => ("till", "rule", till.step(t, place)),
    };
    match step {
        Some(step) => {
            let action = step.action;
            let target = step.target;
            println!(rt;
                "    The {name}'s step at place {place}, action {action} to state {target}, has no reply by the {other}."
            )
        }
        None => println!(rt; "    Place {place} of the {name} is named, and holds no step."),
    }
}

fn tell(
    rt: &HostRuntime,
    note: u8,
    rule: &impl TransitionSystem,
    till: &impl TransitionSystem,
    verdict: Verdict,
) -> io::Result<()> {
    match verdict {
        Ok(()) => println!(rt;
            "{note}. Judged: a match. Whatever one of the two does, the other can follow, for ever."
        ),
        Err(Counterexample::StepUnanswered(s, t, side, place)) => tell_step(
            rt, note, rule, till, s, t, side, place,
        ),
        Err(Counterexample::RootUnanswered(s, t, side, place)) => tell_step(
            rt, note, rule, till, s, t, side, place,
        ),
        Err(Counterexample::StartMissing(s, t)) => println!(rt;
            "{note}. Judged: no match. The starts {s} and {t} are not paired."
        ),
        Err(Counterexample::EndUnanswered(s, t, _)) => println!(rt;
            "{note}. Judged: no match. Of the paired states {s} and {t} only one may end."
        ),
    }
}

// The whole comparison, in three notes.
pub fn compare(
    rt: &HostRuntime,
    note: u8,
    rule: &impl TransitionSystem,
    till: &impl TransitionSystem,
    baskets: Baskets,
) -> io::Result<()> {
    let mut bytes = [0u8; 16];
    let mut marks = [0u8; 32];
    let mut queue = [0u16; 32];
    let mut sheet = Sheet::open(&mut bytes, rule, till);
    match pair_by_sales(&mut sheet, baskets) {
        Ok(count) => {
            let rows = rule.states();
            let columns = till.states();
            println!(rt;
                "{note}. Opened a sheet for the rule's {rows} states and the till's {columns}, and paired {count} times by the passes sold."
            )?;
        }
        Err(fault) => {
            let number = fault.number();
            println!(rt; "{note}. A pair was refused with {number}.")?;
        }
    }
    let next = note.saturating_add(1);
    match sheet.judge(rule, till, &mut marks, &mut queue) {
        Ok(verdict) => tell(rt, next, rule, till, verdict),
        Err(fault) => {
            let number = fault.number();
            println!(rt; "{next}. The judge refused with {number}.")
        }
    }
}
