// A till read from text, and its table.
use modelfile::reading::read;
use processes::equations::Equation;
use processes::terms::Term;
use std::io;
use std::io::Write;
use tables::steps_table::Table;
use transitions::lines::JoinLine;
use transitions::steps::Step;
use unfolding::counts::Counts;
use unfolding::unfolds::unfold;

// A basket sells a pass (action 3) and takes it back (action 6); the till is two such baskets side by side.
const TILL: &[u8; 44] = b"m,2\ne,0,3,1\ne,1,6,0\nt,1,v,0,0\nt,2,m,1,1\nz,2\n";

fn print_table(rt: &HostRuntime, ends: &[u16], steps: &[Step], n: Counts) -> io::Result<()> {
    let table = Table::new(ends, steps, n);
    let mut text = [0u8; 512];
    match table.write(&mut text) {
        Ok(end) => {
            let mut out = rt.stdout();
            out.write_all(&text[..end])?;
        }
        Err(refusal) => {
            let number = refusal.number();
            println!(rt; "    The text was refused with {number}.")?;
        }
    }
    println!(rt;
        "18. The step `s,1,3,3` is the basket's own: its line `e,0,3,1` lets variable 0 do action 3 and become variable 1."
    )?;
    println!(rt;
        "    The step `s,2,3,4` is the rule of a merge for its left side alone: the left basket sells, the right one stays."
    )
}

fn unfold_till(
    rt: &HostRuntime,
    lines: &[JoinLine],
    equations: &[Equation],
    file: &[Term],
    start: usize,
) -> io::Result<()> {
    let mut terms = [Term::Action(0); 16];
    let mut steps = [Step::default(); 32];
    let mut ends = [0u16; 17];
    match unfold(
        lines, equations, file, start, &mut terms, &mut steps, &mut ends,
    ) {
        Ok(n) => {
            let states = n.terms.saturating_add(1);
            let count = n.steps;
            println!(rt;
                "17. Unfolded it by the rules of process terms: {states} states with the ended process, {count} steps. Its table:"
            )?;
            print_table(rt, &ends, &steps, n)
        }
        Err(refusal) => {
            let number = refusal.number();
            println!(rt; "17. The unfolding was refused with {number}.")
        }
    }
}

pub fn read_till(rt: &HostRuntime) -> io::Result<()> {
    let mut lines = [JoinLine::default(); 4];
    let mut equations = [Equation::Ends(0, 0); 8];
    let mut terms = [Term::Action(0); 8];
    match read(TILL, &mut lines, &mut equations, &mut terms) {
        Ok(n) => {
            println!(rt;
                "16. Read a till from text: {} variables, {} communication lines, {} equation lines, {} terms, start term {}.",
                n.variables, n.lines, n.equations, n.terms, n.start
            )?;
            unfold_till(
                rt,
                &lines[..n.lines],
                &equations[..n.equations],
                &terms[..n.terms],
                n.start,
            )
        }
        Err(refusal) => {
            let number = refusal.fault.number();
            let line = refusal.line;
            println!(rt; "16. The text was refused with {number} at line {line}.")
        }
    }
}
