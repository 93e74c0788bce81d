// A file for each refusal and each reading decided upon: a text, the number and the line, 0 and 0 where it is read.
use crate::trying::outcome;

// 2: no line feed, an unknown letter or sign, a wrong count of fields. An empty field counts.
#[test]
fn forms(rt: HostRuntime) {
    let cases: [(&[u8], u8, usize); 14] = [
        (b"m,0", 2, 1),
        (b"m,0\nt,1", 2, 2),
        (b"m,0\nt,1,d,0,0\nz,1", 2, 3),
        (b"x,0\n", 2, 1),
        (b"\n", 2, 1),
        (b"m\n", 2, 1),
        (b"m,0,\n", 2, 1),
        (b"m,0,0\n", 2, 1),
        (b"mm,0\n", 2, 1),
        (b"m,0\nc,1,2\n", 2, 2),
        (b"m,0\nt,1,x,0,0\n", 2, 2),
        (b"m,0\nt,1,,0,0\n", 2, 2),
        (b"m,0\nt,1,++,0,0\n", 2, 2),
        (b"m,0\nt,1,x,q,0\n", 2, 2),
    ];
    for (text, number, line) in cases {
        assert_eq!(rt; outcome(text), (number, line));
    }
}

// 3: not a number or a set, in a line out of turn too.
#[test]
fn values(rt: HostRuntime) {
    let cases: [(&[u8], u8, usize); 13] = [
        (b"m,\n", 3, 1),
        (b"m,00\n", 3, 1),
        (b"m,01\n", 3, 1),
        (b"m,123456\n", 3, 1),
        (b"m,-1\n", 3, 1),
        (b"m, 0\n", 3, 1),
        (b"m,0\r\n", 3, 1),
        (b"c,1,x,2\n", 3, 1),
        (b"m,0\nt,1,d,q,0\n", 3, 2),
        (b"m,0\nt,1,b,1,0\n", 3, 2),
        (b"m,0\nt,1,d,0,0000000000000000\n", 3, 2),
        (b"m,0\nt,1,b,1,000000000000002\n", 3, 2),
        (b"m,0\nt,1,h,1,000000000000000A\n", 3, 2),
    ];
    for (text, number, line) in cases {
        assert_eq!(rt; outcome(text), (number, line));
    }
}

// 4: out of turn, before any limit.
#[test]
fn turns(rt: HostRuntime) {
    let cases: [(&[u8], u8, usize); 7] = [
        (b"t,1,d,0,0\n", 4, 1),
        (b"z,1\n", 4, 1),
        (b"c,99,0,1\n", 4, 1),
        (b"m,0\nm,0\n", 4, 2),
        (b"m,1\nf,0,1\nc,1,2,3\n", 4, 3),
        (b"m,1\nt,1,d,0,0\nf,0,1\n", 4, 3),
        (b"m,1\nt,1,d,0,0\nm,999\n", 4, 3),
    ];
    for (text, number, line) in cases {
        assert_eq!(rt; outcome(text), (number, line));
    }
}

// 5: over a limit, or an unused field that is not 0.
#[test]
fn over_limits(rt: HostRuntime) {
    let cases: [(&[u8], u8, usize); 14] = [
        (b"m,257\n", 5, 1),
        (b"m,99999\n", 5, 1),
        (b"m,0\nc,64,1,1\n", 5, 2),
        (b"m,0\nc,0,64,1\n", 5, 2),
        (b"m,1\nf,1,1\n", 5, 2),
        (b"m,1\nf,0,64\n", 5, 2),
        (b"m,1\ne,0,1,1\n", 5, 2),
        (b"m,0\nt,1,a,64,0\n", 5, 2),
        (b"m,0\nt,9,a,64,0\n", 5, 2),
        (b"m,0\nt,1,a,1,1\n", 5, 2),
        (b"m,0\nt,1,d,1,0\n", 5, 2),
        (b"m,0\nt,1,d,0,1\n", 5, 2),
        (b"m,0\nt,1,v,0,0\n", 5, 2),
        (b"m,1\nt,1,v,0,1\n", 5, 2),
    ];
    for (text, number, line) in cases {
        assert_eq!(rt; outcome(text), (number, line));
    }
}

// 6: not the next term, not an earlier one, not a given one.
#[test]
fn term_numbers(rt: HostRuntime) {
    let cases: [(&[u8], u8, usize); 11] = [
        (b"m,0\nt,2,d,0,0\n", 6, 2),
        (b"m,0\nt,0,d,0,0\n", 6, 2),
        (b"m,0\nt,1,+,1,1\n", 6, 2),
        (b"m,0\nt,1,d,0,0\nt,1,d,0,0\n", 6, 3),
        (b"m,0\nt,1,d,0,0\nt,2,.,1,0\n", 6, 3),
        (b"m,0\nt,1,d,0,0\nt,2,m,2,1\n", 6, 3),
        (b"m,0\nt,1,b,1,0000000000000001\n", 6, 2),
        (b"m,0\nt,1,h,0,0000000000000002\n", 6, 2),
        (b"m,0\nz,1\n", 6, 2),
        (b"m,0\nt,1,d,0,0\nz,0\n", 6, 3),
        (b"m,0\nt,1,d,0,0\nz,2\n", 6, 3),
    ];
    for (text, number, line) in cases {
        assert_eq!(rt; outcome(text), (number, line));
    }
}

// 7: the silent action in a communication or a set.
#[test]
fn silent_actions(rt: HostRuntime) {
    let cases: [(&[u8], u8, usize); 5] = [
        (b"m,0\nc,0,1,2\n", 7, 2),
        (b"m,0\nc,1,0,2\n", 7, 2),
        (b"m,0\nc,1,2,0\n", 7, 2),
        (b"m,0\nt,1,d,0,0\nt,2,b,1,0000000000000001\n", 7, 3),
        (b"m,0\nt,1,d,0,0\nt,2,h,1,ffffffffffffffff\n", 7, 3),
    ];
    for (text, number, line) in cases {
        assert_eq!(rt; outcome(text), (number, line));
    }
}

// 8: said before, in either order for a pair.
#[test]
fn repeats(rt: HostRuntime) {
    let cases: [(&[u8], u8, usize); 5] = [
        (b"m,0\nc,1,2,3\nc,1,2,3\n", 8, 3),
        (b"m,0\nc,1,2,3\nc,2,1,4\n", 8, 3),
        (b"m,1\nf,0,1\nf,0,1\n", 8, 3),
        (b"m,1\ne,0,1,0\nf,0,1\ne,0,1,0\n", 8, 4),
        (b"m,0\nt,1,d,0,0\nt,2,d,0,0\n", 8, 3),
    ];
    for (text, number, line) in cases {
        assert_eq!(rt; outcome(text), (number, line));
    }
}

// 10 to 12, at the start line and past it. A ring counts if no term reaches it.
#[test]
fn starts(rt: HostRuntime) {
    let cases: [(&[u8], u8, usize); 10] = [
        (b"m,0\nc,1,2,3\nc,3,4,5\nt,1,d,0,0\nz,1\n", 10, 5),
        (b"m,1\nc,1,2,3\nc,3,4,5\ne,0,0,0\nt,1,d,0,0\nz,1\n", 10, 6),
        (b"m,0\nc,1,2,3\nc,3,4,5\nt,1,d,0,0\nz,2\n", 6, 5),
        (b"m,0\nc,1,2,3\nc,3,4,5\nt,1,d,0,0\nz,1\nx", 10, 5),
        (b"m,1\ne,0,0,0\nt,1,v,0,0\nz,1\n", 11, 4),
        (b"m,2\ne,0,0,1\ne,1,0,0\nt,1,d,0,0\nz,1\n\n", 11, 5),
        (b"", 12, 1),
        (b"m,0\n", 12, 2),
        (b"m,0\nt,1,d,0,0\nz,1\n\n", 12, 4),
        (b"m,0\nt,1,d,0,0\nz,1\nz", 12, 4),
    ];
    for (text, number, line) in cases {
        assert_eq!(rt; outcome(text), (number, line));
    }
}

// What is read.
#[test]
fn readable(rt: HostRuntime) {
    let cases: [(&[u8], u8, usize); 7] = [
        (b"m,0\nt,1,d,0,0\nz,1\n", 0, 0),
        (b"m,256\nf,255,63\nt,1,v,255,0\nz,1\n", 0, 0),
        (b"m,0\nc,1,1,1\nt,1,a,63,0\nz,1\n", 0, 0),
        (b"m,1\ne,0,1,0\nf,0,1\nf,0,0\nt,1,v,0,0\nz,1\n", 0, 0),
        (b"m,2\ne,0,0,1\nt,1,v,0,0\nz,1\n", 0, 0),
        (
            b"m,0\nt,1,a,0,0\nt,2,d,0,0\nt,3,+,1,2\nt,4,+,2,1\nz,2\n",
            0,
            0,
        ),
        (
            b"m,2\nc,1,2,3\ne,0,1,1\nf,1,63\nt,1,a,0,0\nt,2,d,0,0\nt,3,v,1,0\nt,4,+,1,2\nt,5,.,3,4\nt,6,m,1,5\nt,7,l,6,6\nt,8,j,1,7\nt,9,b,8,fffffffffffffffe\nt,10,h,9,0000000000000000\nz,10\n",
            0,
            0,
        ),
    ];
    for (text, number, line) in cases {
        assert_eq!(rt; outcome(text), (number, line));
    }
}
