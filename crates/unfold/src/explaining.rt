// Why a file is refused, in a plain sentence on standard error.
use modelfile::answers::Refusal;
use std::io;
use std::io::Write;
use tokens::cutting::next_line;

// The line of that number, counted from 1, or what is left of the file there.
fn line_at(bytes: &[u8], number: usize) -> &[u8] {
    let mut rest = bytes;
    for _ in 1..number {
        rest = next_line(rest).map_or(rest, |(_, more)| more);
    }
    next_line(rest).map_or(rest, |(text, _)| text)
}

// The first bytes of a line; those that are no plain characters stay question marks.
fn show(line: &[u8], shown: &mut [u8]) {
    for (place, byte) in shown.iter_mut().zip(line) {
        if (32..127).contains(byte) {
            *place = *byte;
        }
    }
}

fn write_line(rt: &HostRuntime, line: &[u8]) -> io::Result<()> {
    let mut shown = [b'?'; 60];
    show(line, &mut shown);
    let mut out = rt.stderr();
    out.write_all(&shown[0..line.len().min(60)])
}

// One sentence on why the file is refused, and the line at fault.
pub fn explain(rt: &HostRuntime, bytes: &[u8], refusal: Refusal) -> io::Result<()> {
    let number = refusal.fault.number();
    let why = refusal.fault;
    if refusal.line == 0 {
        return eprintln!(rt; "unfold: model.txt is refused with {number}: {why}.");
    }
    eprintln!(rt;
        "unfold: line {} of model.txt is refused with {number}: {why}. The line is:",
        refusal.line
    )?;
    write_line(rt, line_at(bytes, refusal.line))?;
    eprintln!(rt; "")
}
