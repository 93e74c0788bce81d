// A model file read into lent rows.
ghost use Rattle.modelfile.specs.Promise.{IsRead};

use super::answers::{Counts, Refusal};
use super::entries::Entry;
use super::faults::Fault;
use super::filling::Filling;
use processes::equations::Equation;
use processes::terms::Term;
use rows::clear;
use tokens::cutting::next_line;
use transitions::lines::JoinLine;

impl Filling<'_> {
    ghost use Rattle.std.specs.Prelude.{◌≡◌};
    ghost use Rattle.modelfile.specs.State.{ReadsLine, ReadsFile, counts_of};

    // One finished line: judged, and stored unless it names the start term, which is then the answer.
    fn read_line(&mut self, text: &[u8]) -> Result<Option<u32>, Fault>
        ensures { ReadsLine self.old text.now self.new result }
    {
        match self.judge_line(text)? {
            Entry::Starts(n) => Ok(Some(n)),
            entry => {
                self.store(entry);
                Ok(None)
            }
        }
    }

    // How far each row is filled, with the start term.
    fn counts(&self, start: u32) -> Counts
        ensures { result ≡ counts_of self.now start }
    {
        Counts {
            variables: self.variables as usize,
            lines: self.line_count,
            equations: self.equation_count,
            terms: self.term_count,
            start: start as usize,
        }
    }

    // The lines of a file, up to the start line, behind which nothing may stand; a refusal may leave anything in the rows.
    fn read(&mut self, bytes: &[u8]) -> Result<Counts, Refusal>
        ensures { ReadsFile self.old bytes.now self.new result }
    {
        if bytes.len() > 32768 {
            return Err(Refusal {
                fault: Fault::TooLong,
                line: 0,
            });
        }
        let mut rest = bytes;
        let mut line = 1;
        while let Some((text, more)) = next_line(rest) {
            let start = self
                .read_line(text)
                .map_err(|fault| Refusal { fault, line })?;
            if let Some(start) = start {
                if more.is_empty() {
                    return Ok(self.counts(start));
                }
                return Err(Refusal {
                    fault: Fault::WrongEnd,
                    line: line + 1,
                });
            }
            rest = more;
            line += 1;
        }
        let fault = if rest.is_empty() {
            Fault::WrongEnd
        } else {
            Fault::NoForm
        };
        Err(Refusal { fault, line })
    }
}

// The tables of a file, or the fault of its first faulty line.
pub fn read(
    bytes: &[u8],
    lines: &mut [JoinLine],
    equations: &mut [Equation],
    terms: &mut [Term],
) -> Result<Counts, Refusal>
    ensures { IsRead bytes.now lines.old equations.old terms.old lines.new equations.new terms.new result }
{
    let mut filling = Filling {
        section: None,
        variables: 0,
        lines,
        line_count: 0,
        equations,
        equation_count: 0,
        terms,
        term_count: 0,
    };
    // Kept: a `match`; behind `if result.is_err()` the proof of what was read no longer closed.
    match filling.read(bytes) {
        Ok(n) => Ok(n),
        Err(e) => {
            // Kept: the zero line written out; with `JoinLine::default()` the proof would name what `default` gives.
            clear(
                lines,
                JoinLine {
                    a: 0,
                    b: 0,
                    joint: 0,
                },
            );
            clear(equations, Equation::Ends(0, 0));
            clear(terms, Term::Action(0));
            Err(e)
        }
    }
}
