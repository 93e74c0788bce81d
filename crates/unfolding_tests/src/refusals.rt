// The room on both sides of its limits, and tables that no file may hold.
use processes::equations::Equation;
use processes::terms::Term;
use transitions::lines::JoinLine;
use transitions::steps::Step;
use unfolding::unfolds::unfold;

const NO_STEP: Step = Step {
    action: 0,
    target: 0,
};

// The states and steps of an unfolding, or 0 and the number of its refusal.
fn sizes(
    lines: &[JoinLine],
    equations: &[Equation],
    file: &[Term],
    start: usize,
    terms: &mut [Term],
    steps: &mut [Step],
    ends: &mut [u16],
) -> (usize, usize) {
    match unfold(lines, equations, file, start, terms, steps, ends) {
        Ok(n) => (n.terms.saturating_add(1), n.steps),
        Err(refusal) => (0, refusal.number() as usize),
    }
}

// A process of two equal steps merged with itself: seven states and nine steps.
fn merged(terms: &mut [Term], steps: &mut [Step], ends: &mut [u16]) -> (usize, usize) {
    let equations = [Equation::Becomes(0, 1, 1), Equation::Ends(1, 1)];
    sizes(
        &[],
        &equations,
        &[Term::Variable(0), Term::Merge(1, 1)],
        2,
        terms,
        steps,
        ends,
    )
}

#[test]
fn room_for_terms(rt: HostRuntime) {
    assert_eq!(rt;
        merged(&mut [Term::Deadlock; 6], &mut [NO_STEP; 9], &mut [0; 7]),
        (7, 9),
        "it just fits"
    );
    assert_eq!(rt;
        merged(&mut [Term::Deadlock; 5], &mut [NO_STEP; 9], &mut [0; 7]),
        (0, 14),
        "one term too few"
    );
    assert_eq!(rt;
        merged(&mut [Term::Deadlock; 6], &mut [NO_STEP; 8], &mut [0; 7]),
        (0, 14),
        "one step too few"
    );
    assert_eq!(rt;
        merged(&mut [Term::Deadlock; 6], &mut [NO_STEP; 9], &mut [0; 6]),
        (0, 14),
        "one row end too few"
    );
    assert_eq!(rt;
        merged(&mut [Term::Deadlock; 1], &mut [NO_STEP; 9], &mut [0; 7]),
        (0, 14),
        "the file's own terms do not fit"
    );
    assert_eq!(rt;
        merged(&mut [], &mut [], &mut []),
        (0, 14),
        "no room at all"
    );
}

#[test]
fn what_stands_after(rt: HostRuntime) {
    let mut steps = [Step {
        action: 9,
        target: 9,
    }; 10];
    assert_eq!(rt;
        merged(&mut [Term::Deadlock; 6], &mut steps, &mut [0; 7]),
        (7, 9)
    );
    assert_eq!(rt; (steps[8].action, steps[8].target), (1, 3), "the last step");
    assert_eq!(rt; steps[9].target, 9, "what is unused stays");
    assert_eq!(rt;
        merged(&mut [Term::Deadlock; 5], &mut steps, &mut [0; 7]),
        (0, 14)
    );
    assert_eq!(rt;
        (steps[0].action, steps[9].target),
        (0, 0),
        "refused, every entry is 0"
    );
}

#[test]
fn what_no_file_may_hold(rt: HostRuntime) {
    let twice = [
        JoinLine {
            a: 1,
            b: 2,
            joint: 3,
        },
        JoinLine {
            a: 2,
            b: 1,
            joint: 3,
        },
    ];
    let one = [Term::Action(1)];
    assert_eq!(rt;
        sizes(
            &[],
            &[],
            &one,
            1,
            &mut [Term::Deadlock; 4],
            &mut [NO_STEP; 4],
            &mut [0; 5],
        ),
        (2, 1)
    );
    assert_eq!(rt;
        sizes(
            &twice,
            &[],
            &one,
            1,
            &mut [Term::Deadlock; 4],
            &mut [NO_STEP; 4],
            &mut [0; 5],
        ),
        (0, 14),
        "a pair said twice"
    );
    assert_eq!(rt;
        sizes(
            &[],
            &[Equation::Becomes(0, 0, 0)],
            &one,
            1,
            &mut [Term::Deadlock; 4],
            &mut [NO_STEP; 4],
            &mut [0; 5],
        ),
        (0, 14),
        "a silent ring"
    );
    assert_eq!(rt;
        sizes(
            &[],
            &[],
            &[Term::Choice(1, 2)],
            1,
            &mut [Term::Deadlock; 4],
            &mut [NO_STEP; 4],
            &mut [0; 5],
        ),
        (0, 14),
        "not earlier terms"
    );
    assert_eq!(rt;
        sizes(
            &[],
            &[],
            &one,
            2,
            &mut [Term::Deadlock; 4],
            &mut [NO_STEP; 4],
            &mut [0; 5],
        ),
        (0, 14),
        "no such start"
    );
}

// Lines that let variable 0 do each of the 64 actions to each of the variables 1 to 16: 1,024 of them.
fn fill(equations: &mut [Equation]) {
    let mut action: u8 = 0;
    let mut variable: u8 = 1;
    for entry in equations.iter_mut() {
        *entry = Equation::Becomes(0, action, variable);
        if variable < 16 {
            variable += 1;
        } else {
            variable = 1;
            action = action.saturating_add(1);
        }
    }
}

// A choice of four terms of 1,024 steps each, whose targets differ.
#[test]
fn the_width_that_fits(rt: HostRuntime) {
    let mut equations = [Equation::Ends(0, 0); 1024];
    fill(&mut equations);
    let file = [
        Term::Variable(0),
        Term::Action(5),
        Term::Hide(1, 0),
        Term::Block(1, 0),
        Term::Sequence(1, 2),
        Term::Choice(1, 3),
        Term::Choice(4, 5),
        Term::Choice(6, 7),
    ];
    let got = sizes(
        &[],
        &equations,
        &file,
        8,
        &mut [Term::Deadlock; 80],
        &mut [NO_STEP; 16384],
        &mut [0; 81],
    );
    assert_eq!(rt; got, (73, 12289), "4,096 steps of one term");
}

#[test]
fn one_step_too_wide(rt: HostRuntime) {
    let mut equations = [Equation::Ends(0, 0); 1024];
    fill(&mut equations);
    let file = [
        Term::Variable(0),
        Term::Action(5),
        Term::Hide(1, 0),
        Term::Block(1, 0),
        Term::Sequence(1, 2),
        Term::Choice(1, 2),
        Term::Choice(6, 3),
        Term::Choice(4, 5),
        Term::Choice(7, 8),
    ];
    let got = sizes(
        &[],
        &equations,
        &file,
        9,
        &mut [Term::Deadlock; 80],
        &mut [NO_STEP; 16384],
        &mut [0; 81],
    );
    assert_eq!(rt; got, (0, 14), "4,097 steps of one term");
}
