// The limits on both sides: files made to a limit are read, and one line or byte more is refused.
use crate::trying::{outcome, short_outcome};
use std::alloc::{AllocError, Global};
use std::fmt::Write;
use std::test::Fail;

// A file with n communication lines.
fn with_lines(heap: Global, n: u16) -> Result<String, AllocError> {
    let mut text = String::new(heap);
    text.push_str("m,0\n")?;
    for i in 0..n {
        writeln!(text, "c,{},33,63", u32::from(i) + 1)?;
    }
    text.push_str("t,1,d,0,0\nz,1\n")?;
    Ok(text)
}

// A file with n equation lines.
fn with_equations(heap: Global, n: u16) -> Result<String, AllocError> {
    let mut text = String::new(heap);
    text.push_str("m,256\n")?;
    for i in 0..n {
        writeln!(text, "f,{},{}", i % 256, i / 256)?;
    }
    text.push_str("t,1,d,0,0\nz,1\n")?;
    Ok(text)
}

// A file with one term more than n.
fn with_terms(heap: Global, n: u16) -> Result<String, AllocError> {
    let mut text = String::new(heap);
    text.push_str("m,0\nt,1,d,0,0\n")?;
    for i in 0..n {
        let k = u32::from(i) + 1;
        writeln!(text, "t,{},.,{k},{k}", k + 1)?;
    }
    text.push_str("z,1\n")?;
    Ok(text)
}

// n bytes without a line feed.
fn bytes(heap: Global, n: u16) -> Result<Vec<u8>, AllocError> {
    Ok(vec![in heap; b'x'; usize::from(n)]?)
}

#[test]
fn lines(rt: HostRuntime) -> Result<(), Fail> {
    assert_eq!(rt; outcome(with_lines(rt.alloc(), 32)?.as_bytes()), (0, 0));
    assert_eq!(rt; outcome(with_lines(rt.alloc(), 33)?.as_bytes()), (9, 34));
    Ok(())
}

#[test]
fn equations(rt: HostRuntime) -> Result<(), Fail> {
    assert_eq!(rt;
        outcome(with_equations(rt.alloc(), 1024)?.as_bytes()),
        (0, 0)
    );
    assert_eq!(rt;
        outcome(with_equations(rt.alloc(), 1025)?.as_bytes()),
        (9, 1026)
    );
    Ok(())
}

#[test]
fn terms(rt: HostRuntime) -> Result<(), Fail> {
    assert_eq!(rt; outcome(with_terms(rt.alloc(), 255)?.as_bytes()), (0, 0));
    assert_eq!(rt; outcome(with_terms(rt.alloc(), 256)?.as_bytes()), (9, 258));
    Ok(())
}

// 1 comes before anything else, for the whole file.
#[test]
fn sizes(rt: HostRuntime) -> Result<(), Fail> {
    assert_eq!(rt; outcome(bytes(rt.alloc(), 32768)?.as_slice()), (2, 1));
    assert_eq!(rt; outcome(bytes(rt.alloc(), 32769)?.as_slice()), (1, 0));
    Ok(())
}

// 9 where the entries handed over are fewer than the limit, and 8 before 9.
#[test]
fn short_rows(rt: HostRuntime) {
    let cases: [(&[u8], u8, usize); 6] = [
        (b"m,1\nc,1,2,3\nf,0,1\nt,1,d,0,0\nz,1\n", 0, 0),
        (b"m,1\nc,1,2,3\nc,1,3,4\n", 9, 3),
        (b"m,1\nf,0,1\nf,0,2\n", 9, 3),
        (b"m,1\nt,1,d,0,0\nt,2,+,1,1\n", 9, 3),
        (b"m,1\nf,0,1\nf,0,1\n", 8, 3),
        (b"m,1\nc,1,2,3\nc,2,1,4\n", 8, 3),
    ];
    for (text, number, line) in cases {
        assert_eq!(rt; short_outcome(text), (number, line));
    }
}
