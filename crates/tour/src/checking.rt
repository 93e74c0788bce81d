// Calls on a new sheet, refused ones included, and what becomes of the match when both models are changed alike.
use crate::tills::{GATE_LINES, REFUND, gate};
use actions::listed::Listed;
use actions::sets::ActionSet;
use judging::calls::judge;
use judging::replies::Ask;
use models::hiding::Hidden;
use models::merging::Merge;
use models::systems::TransitionSystem;
use pairings::besides::Beside;
use pairings::faults::Fault;
use pairings::standing::Pairing;
use sheets::sheet::Sheet;
use std::io;
use transitions::replies::Reply;
use transitions::verdicts::{Figures, Verdict};

fn tell_change(rt: &HostRuntime, call: &str, answer: Result<(), Fault>) -> io::Result<()> {
    match answer {
        Ok(_) => println!(rt; "    {call}: done"),
        Err(fault) => println!(rt; "    {call}: refused with {}", fault.number()),
    }
}

fn tell_verdict(rt: &HostRuntime, call: &str, answer: Result<Verdict, Fault>) -> io::Result<()> {
    match answer {
        Ok(Ok(())) => println!(rt; "    {call}: a match"),
        Ok(Err(counterexample)) => {
            let f = Figures::from(Err(counterexample));
            println!(rt;
                "    {call}: no match, kind {} at states {} and {}, side {}, place {}",
                f.kind, f.left, f.right, f.side, f.place
            )
        }
        Err(fault) => println!(rt; "    {call}: refused with {}", fault.number()),
    }
}

fn tell_reply(
    rt: &HostRuntime,
    call: &str,
    answer: Result<Option<Reply>, Fault>,
) -> io::Result<()> {
    match answer {
        Ok(Some(Reply::Stays)) => println!(rt; "    {call}: it stays"),
        Ok(Some(Reply::Moves(state, place))) => println!(rt;
            "    {call}: it moves, from state {state} at place {place}"
        ),
        Ok(None) => println!(rt; "    {call}: nothing"),
        Err(fault) => println!(rt; "    {call}: refused with {}", fault.number()),
    }
}

// Pairs by the passes sold, and among them some calls that are refused.
fn change_pairs(rt: &HostRuntime, sheet: &mut Sheet) -> io::Result<()> {
    tell_change(rt, "pair 0 and 0", sheet.pair(0, 0))?;
    tell_change(rt, "pair 0 and 0 once more", sheet.pair(0, 0))?;
    tell_change(rt, "pair 3 and 0", sheet.pair(3, 0))?;
    tell_change(rt, "unpair 2 and 8", sheet.unpair(2, 8))?;
    tell_change(rt, "pair 1 and 4", sheet.pair(1, 4))?;
    tell_change(rt, "pair 1 and 10", sheet.pair(1, 10))?;
    tell_change(rt, "pair 2 and 8", sheet.pair(2, 8))?;
    tell_change(rt, "pair 2 and 14", sheet.pair(2, 14))?;
    tell_change(rt, "pair 2 and 20", sheet.pair(2, 20))
}

// Verdicts and a reply.
fn ask_sheet(
    rt: &HostRuntime,
    rule: &impl TransitionSystem,
    till: &impl TransitionSystem,
    sheet: &mut Sheet,
) -> io::Result<()> {
    let mut few = [0u8; 10];
    let mut marks = [0u8; 32];
    let mut queue = [0u16; 32];
    let ask = Ask {
        side: 0,
        s: 0,
        t: 0,
        place: 0,
    };
    tell_verdict(
        rt,
        "judge with 10 marks",
        sheet.judge(rule, till, &mut few, &mut queue),
    )?;
    tell_verdict(rt, "judge", sheet.judge(rule, till, &mut marks, &mut queue))?;
    tell_verdict(
        rt,
        "without 2 and 14",
        sheet.without(rule, till, 2, 14, &mut marks, &mut queue),
    )?;
    tell_reply(
        rt,
        "the till's reply to the rule's first sale",
        sheet.reply(rule, till, ask, &mut marks, &mut queue),
    )
}

// Judges two models under a pairing once more.
fn judge_again(
    rt: &HostRuntime,
    note: u8,
    what: &str,
    left: &impl TransitionSystem,
    right: &impl TransitionSystem,
    pairing: &impl Pairing,
) -> io::Result<()> {
    let mut marks = [0u8; 64];
    let mut queue = [0u16; 64];
    match judge(left, right, pairing, &mut marks, &mut queue) {
        Ok(Ok(())) => println!(rt; "{note}. {what}: judged again, the match stays."),
        Ok(Err(_)) => println!(rt; "{note}. {what}: judged again, no match."),
        Err(fault) => println!(rt; "{note}. {what}: refused with {}.", fault.number()),
    }
}

// Hides refunds in both, and merges both with one gate.
fn change_both(
    rt: &HostRuntime,
    rule: &impl TransitionSystem,
    till: &impl TransitionSystem,
    sheet: &Sheet,
) -> io::Result<()> {
    let refunds = ActionSet::new(1 << REFUND);
    judge_again(
        rt,
        14,
        "Refunds are hidden in the rule and in the till",
        &Hidden::new(rule, refunds),
        &Hidden::new(till, refunds),
        sheet,
    )?;
    let gate = gate();
    let at_gate = Merge::new(rule, gate, Listed::new(&GATE_LINES));
    let till_at_gate = Merge::new(till, gate, Listed::new(&GATE_LINES));
    judge_again(
        rt,
        15,
        "Both are merged with one gate, which joins their sales",
        &at_gate,
        &till_at_gate,
        &Beside::new(sheet, &gate),
    )
}

// The calls one by one, each starting from what the one before it left.
pub fn check_sheet(
    rt: &HostRuntime,
    rule: &impl TransitionSystem,
    till: &impl TransitionSystem,
) -> io::Result<()> {
    let mut bytes = [0u8; 16];
    println!(rt;
        "13. A new sheet for the rule and the corrected till, and calls on it, some of them refused:"
    )?;
    let mut sheet = Sheet::open(&mut bytes, rule, till);
    change_pairs(rt, &mut sheet)?;
    ask_sheet(rt, rule, till, &mut sheet)?;
    change_both(rt, rule, till, &sheet)
}
