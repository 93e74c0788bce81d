// A file with the text of its table, and files that are refused.
use crate::unfolded::unfold_file;
use modelfile::reading::read;
use processes::equations::Equation;
use processes::terms::Term;
use std::test::Fail;
use transitions::lines::JoinLine;
use worked::files::File;

#[test]
fn merged_steps(rt: HostRuntime) -> Result<(), Fail> {
    let mut text = [0u8; 80];
    let end = unfold_file(File::Merged.bytes()).map(|merged| merged.table().write(&mut text));
    assert_eq!(rt; end, Some(Ok(80)));
    assert_eq!(rt;
        text,
        *b"n,7,2,9\ns,1,1,3\ns,2,1,4\ns,2,1,5\ns,3,1,0\ns,4,1,1\ns,4,1,6\ns,5,1,6\ns,5,1,1\ns,6,1,3\n"
    );
    Ok(())
}

// The number and the line of the refusal, 0 and 0 where the file is read.
fn refusal(file: File) -> (u8, usize) {
    let mut lines = [JoinLine::default(); 4];
    let mut equations = [Equation::Ends(0, 0); 4];
    let mut terms = [Term::Action(0); 4];
    match read(file.bytes(), &mut lines, &mut equations, &mut terms) {
        Ok(_) => (0, 0),
        Err(refusal) => (refusal.fault.number(), refusal.line),
    }
}

#[test]
fn refused_files(rt: HostRuntime) {
    assert_eq!(rt; refusal(File::NotAssociative), (10, 5));
    assert_eq!(rt; refusal(File::SilentRing), (11, 4));
    assert_eq!(rt; refusal(File::Merged), (0, 0));
}
