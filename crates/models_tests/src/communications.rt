// What joins, and which lines join nothing.
use actions::communications::Communication;
use actions::listed::Listed;
use actions::ports::Ports;
use rows::{all_differ, find_same};
use transitions::lines::JoinLine;

fn line(a: u8, b: u8, joint: u8) -> JoinLine {
    JoinLine { a, b, joint }
}

#[test]
fn ports_join(rt: HostRuntime) {
    let ports = Ports::new();
    assert_eq!(rt; ports.join(1, 2), Some(3));
    assert_eq!(rt; ports.join(2, 1), Some(3));
    assert_eq!(rt; ports.join(58, 59), Some(60), "the last port");
    assert_eq!(rt; ports.join(61, 62), None, "there is no port 20");
    assert_eq!(rt; ports.join(1, 1), None);
    assert_eq!(rt; ports.join(0, 1), None);
}

fn joined(lines: &[JoinLine], a: u8, b: u8) -> Option<u8> {
    Listed::new(lines).join(a, b)
}

#[test]
fn lines_join(rt: HostRuntime) {
    let two = [line(1, 2, 3), line(4, 5, 6)];
    assert_eq!(rt; joined(&two, 1, 2), Some(3));
    assert_eq!(rt; joined(&two, 5, 4), Some(6), "in either order");
    assert_eq!(rt; joined(&two, 1, 4), None);
    assert_eq!(rt; joined(&[], 1, 2), None, "no line");
}

// Lines are searched by the pair that they name, in either order, whatever it joins to.
#[test]
fn lines_are_found_by_their_pair(rt: HostRuntime) {
    let two = [line(1, 2, 3), line(4, 5, 6)];
    assert_eq!(rt; find_same(&two, &line(5, 4, 0)), Some(1));
    assert_eq!(rt; find_same(&two, &line(1, 4, 3)), None);
    assert!(rt; all_differ(&two));
    assert!(rt; !all_differ(&[line(1, 2, 3), line(2, 1, 4)]));
}

#[test]
fn lines_that_join_nothing(rt: HostRuntime) {
    assert_eq!(rt; joined(&[line(1, 2, 0)], 1, 2), None, "a silent joint");
    assert_eq!(rt; joined(&[line(1, 2, 64)], 1, 2), None, "64 is no action");
    assert_eq!(rt; joined(&[line(0, 2, 3)], 0, 2), None, "a silent partner");
    assert_eq!(rt;
        joined(&[line(1, 2, 3), line(2, 1, 3)], 1, 2),
        None,
        "said twice"
    );
    assert_eq!(rt;
        joined(&[line(1, 2, 3), line(3, 4, 5)], 1, 2),
        None,
        "not associative"
    );
}

// Lines of different pairs, all to the action 63, which no line names.
fn fill(lines: &mut [JoinLine]) {
    let mut k: u8 = 0;
    for entry in lines.iter_mut() {
        *entry = if k < 31 {
            line(2 * k + 1, 2 * k + 2, 63)
        } else {
            line(1, k - 28, 63)
        };
        k = k.saturating_add(1);
    }
}

#[test]
fn many_lines(rt: HostRuntime) {
    let mut most = [line(0, 0, 0); 32];
    fill(&mut most);
    assert_eq!(rt; joined(&most, 1, 2), Some(63), "32 lines");
    let mut too_many = [line(0, 0, 0); 33];
    fill(&mut too_many);
    assert_eq!(rt; joined(&too_many, 1, 2), None, "33 lines");
}
