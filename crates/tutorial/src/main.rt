// A house rule and two tills, read from text, unfolded, paired and judged.
#![tactic(auto)]

mod loading;

use crate::loading::load;
use models::systems::TransitionSystem;
use pairings::faults::Fault;
use sheets::sheet::Sheet;
use std::io;
use transitions::verdicts::{Figures, Verdict};

// A pass is paid for (action 1) and handed out (action 2), again and again.
const RULE: &[u8; 34] = b"m,2\ne,0,1,1\ne,1,2,0\nt,1,v,0,0\nz,1\n";

// The till looks up its stock, silently, before it hands out.
const TILL: &[u8; 42] = b"m,3\ne,0,1,1\ne,1,0,2\ne,2,2,0\nt,1,v,0,0\nz,1\n";

// A till that may also forget, silently, that the pass was paid for.
const FORGETFUL: &[u8; 50] = b"m,3\ne,0,1,1\ne,1,0,2\ne,1,0,0\ne,2,2,0\nt,1,v,0,0\nz,1\n";

// Pairs the states of the rule with those of a till: nothing paid, paid, and paid with the stock looked up.
fn pair_states(sheet: &mut Sheet) -> Result<(), Fault> {
    sheet.pair(1, 1)?;
    sheet.pair(2, 2)?;
    sheet.pair(2, 3)
}

fn tell(rt: &HostRuntime, name: &str, answer: Result<Verdict, Fault>) -> io::Result<()> {
    match answer {
        Ok(verdict) => {
            let f = Figures::from(verdict);
            println!(rt;
                "{name}: kind {}, states {} and {}, side {}, place {}",
                f.kind, f.left, f.right, f.side, f.place
            )
        }
        Err(fault) => println!(rt; "{name}: refused with {}", fault.number()),
    }
}

fn judge_pairs(
    rt: &HostRuntime,
    name: &str,
    rule: &impl TransitionSystem,
    till: &impl TransitionSystem,
) -> io::Result<()> {
    let mut bytes = [0u8; 2];
    let mut marks = [0u8; 4];
    let mut queue = [0u16; 4];
    let mut sheet = Sheet::open(&mut bytes, rule, till);
    match pair_states(&mut sheet) {
        Ok(_) => tell(rt, name, sheet.judge(rule, till, &mut marks, &mut queue)),
        Err(fault) => println!(rt; "{name}: a pair was refused with {}", fault.number()),
    }
}

fn compare(rt: &HostRuntime, name: &str, till: &[u8]) -> io::Result<()> {
    match (load(RULE), load(till)) {
        (Some(rule), Some(till)) => judge_pairs(rt, name, &rule.table(), &till.table()),
        _ => println!(rt; "{name}: a file was refused"),
    }
}

fn main(rt: HostRuntime) -> io::Result<()> {
    compare(&rt, "the till", TILL)?;
    compare(&rt, "the forgetful till", FORGETFUL)
}
