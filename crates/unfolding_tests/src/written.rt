// The text of a table, and a buffer that is too short for it.
use processes::equations::Equation;
use processes::terms::Term;
use tables::steps_table::Table;
use transitions::steps::Step;
use unfolding::unfolds::unfold;

// The length of the text of two equal choices of action 1, or the number of the refusal, in a buffer of so many bytes.
fn written(buffer: &mut [u8]) -> usize {
    let file = [Term::Action(1), Term::Choice(1, 1)];
    let mut terms = [Term::Action(0); 4];
    let mut steps = [Step {
        action: 0,
        target: 0,
    }; 4];
    let mut ends = [0u16; 5];
    match unfold(
        &[],
        &[Equation::Ends(0, 1)],
        &file,
        2,
        &mut terms,
        &mut steps,
        &mut ends,
    ) {
        Ok(n) => match Table::new(&ends, &steps, n).write(buffer) {
            Ok(length) => length,
            Err(refusal) => 1000 + refusal.number() as usize,
        },
        Err(refusal) => 2000 + refusal.number() as usize,
    }
}

#[test]
fn a_text_and_its_buffer(rt: HostRuntime) {
    let mut fits = [7u8; 24];
    assert_eq!(rt; written(&mut fits), 24);
    assert_eq!(rt; fits, *b"n,3,2,2\ns,1,1,0\ns,2,1,0\n", "equal steps once");
    let mut short = [7u8; 23];
    assert_eq!(rt; written(&mut short), 1015, "one byte too few");
    assert_eq!(rt; short, [7u8; 23], "the buffer stays");
}
