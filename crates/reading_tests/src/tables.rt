// What stands in the tables after a reading.
use modelfile::reading::read;
use processes::equations::Equation;
use processes::terms::Term;
use transitions::lines::JoinLine;

// Whether the text leaves these entries in rows of one entry that held others.
fn leaves(text: &[u8], joint: u8, equation: Equation, term: Term) -> bool {
    let mut lines = [JoinLine {
        a: 9,
        b: 9,
        joint: 9,
    }; 1];
    let mut equations = [Equation::Ends(9, 9); 1];
    let mut terms = [Term::Action(9); 1];
    let _ = read(text, &mut lines, &mut equations, &mut terms);
    let line = lines[0];
    line.joint == joint && equations[0] == equation && terms[0] == term
}

#[test]
fn filled(rt: HostRuntime) {
    assert!(rt;
        leaves(
            b"m,1\nc,1,2,3\ne,0,4,0\nt,1,v,0,0\nz,1\n",
            3,
            Equation::Becomes(0, 4, 0),
            Term::Variable(0),
        )
    );
}

#[test]
fn untouched(rt: HostRuntime) {
    assert!(rt;
        leaves(
            b"m,0\nt,1,d,0,0\nz,1\n",
            9,
            Equation::Ends(9, 9),
            Term::Deadlock,
        )
    );
}

#[test]
fn cleared(rt: HostRuntime) {
    assert!(rt;
        leaves(
            b"m,1\nc,1,2,3\ne,0,4,0\nt,1,v,0,0\nz,2\n",
            0,
            Equation::Ends(0, 0),
            Term::Action(0),
        )
    );
    assert!(rt; leaves(b"", 0, Equation::Ends(0, 0), Term::Action(0)));
}
