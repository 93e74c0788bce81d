// Reads model.txt and prints its table: a line `n,states,start,steps`, and then `s,state,action,target` for each step. A refusal
// prints `r,number,line`, and says why on standard error.
#![tactic(auto)]

mod explaining;

use crate::explaining::explain;
use modelfile::reading::read;
use processes::equations::Equation;
use processes::terms::Term;
use std::io::Write;
use std::{fs, io};
use tables::steps_table::Table;
use transitions::lines::JoinLine;
use transitions::steps::Step;
use unfolding::counts::Counts;
use unfolding::unfolds::unfold;

// The text of a table of at most 4,096 steps has at most 81,940 bytes.
fn print_table(rt: &HostRuntime, ends: &[u16], steps: &[Step], n: Counts) -> io::Result<()> {
    let table = Table::new(ends, steps, n);
    let mut text = [0u8; 81940];
    match table.write(&mut text) {
        Ok(end) => {
            let mut out = rt.stdout();
            out.write_all(&text[..end])
        }
        Err(refusal) => println!(rt; "r,{},0", refusal.number()),
    }
}

// The room is 1,024 terms, the ended process counted, and 4,096 steps.
fn print_unfolding(
    rt: &HostRuntime,
    lines: &[JoinLine],
    equations: &[Equation],
    file: &[Term],
    start: usize,
) -> io::Result<()> {
    let mut terms = [Term::Action(0); 1023];
    let mut steps = [Step::default(); 4096];
    let mut ends = [0u16; 1024];
    match unfold(
        lines, equations, file, start, &mut terms, &mut steps, &mut ends,
    ) {
        Ok(n) => print_table(rt, &ends, &steps, n),
        Err(refusal) => {
            println!(rt; "r,{},0", refusal.number())?;
            eprintln!(rt;
                "unfold: the table of model.txt is refused with {}: it needs over 1,024 states or over 4,096 steps.",
                refusal.number()
            )
        }
    }
}

// The unfolding of a file's bytes.
// Not put into `main`, which would then take the stack of these rows where there is no file, too.
#[inline(never)]
fn print_model(rt: &HostRuntime, bytes: &[u8]) -> io::Result<()> {
    let mut lines = [JoinLine::default(); 32];
    let mut equations = [Equation::Ends(0, 0); 1024];
    let mut terms = [Term::Action(0); 256];
    match read(bytes, &mut lines, &mut equations, &mut terms) {
        Ok(n) => print_unfolding(
            rt,
            &lines[..n.lines],
            &equations[..n.equations],
            &terms[..n.terms],
            n.start,
        ),
        Err(refusal) => {
            println!(rt; "r,{},{}", refusal.fault.number(), refusal.line)?;
            explain(rt, bytes, refusal)
        }
    }
}

fn main(rt: HostRuntime) -> io::Result<()> {
    match fs::read(&rt, "model.txt") {
        Ok(bytes) => print_model(&rt, bytes.as_slice()),
        Err(error) => {
            eprintln!(rt; "unfold: the file model.txt cannot be read here")?;
            Err(error)
        }
    }
}
