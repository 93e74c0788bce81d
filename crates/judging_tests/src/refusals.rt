// Every refusal, in its order, and the scratch.
use judging::calls::judge;
use models::counters::Counter;
use pairings::besides::Beside;
use pairings::faults::Fault;
use sheets::sheet::Sheet;
use transitions::verdicts::{Figures, Verdict};

fn done(answer: Result<(), Fault>) -> u8 {
    match answer {
        Ok(_) => 0,
        Err(fault) => fault.number(),
    }
}

// The kind of the verdict, or the number of the refusal.
fn kind(answer: Result<Verdict, Fault>) -> u8 {
    match answer {
        Ok(verdict) => Figures::from(verdict).kind,
        Err(fault) => fault.number(),
    }
}

#[test]
fn pairs(rt: HostRuntime) {
    let counter = Counter::new(2, 1, 2);
    let mut bytes = [255u8; 2];
    let mut sheet = Sheet::open(&mut bytes, &counter, &counter);
    assert_eq!(rt; done(sheet.pair(2, 2)), 0);
    assert_eq!(rt; done(sheet.pair(2, 2)), 32);
    assert_eq!(rt; done(sheet.pair(3, 0)), 21);
    assert_eq!(rt; done(sheet.pair(0, 3)), 21);
    assert_eq!(rt; done(sheet.unpair(0, 0)), 33);
    assert_eq!(rt; done(sheet.unpair(0, 3)), 21);
    assert_eq!(rt; done(sheet.unpair(2, 2)), 0);
    assert_eq!(rt; done(sheet.unpair(2, 2)), 33);
}

#[test]
fn blank_sheets(rt: HostRuntime) {
    let counter = Counter::new(2, 1, 2);
    let mut bytes = [255u8; 1];
    let mut sheet = Sheet::open(&mut bytes, &counter, &counter);
    assert_eq!(rt; done(sheet.pair(9, 9)), 31, "nine pairs want two bytes");
    assert_eq!(rt; done(sheet.unpair(9, 9)), 31);
    assert_eq!(rt; kind(sheet.judge(&counter, &counter, &mut [], &mut [])), 31);
    assert_eq!(rt;
        kind(sheet.without(&counter, &counter, 9, 9, &mut [], &mut [])),
        31
    );
    let mut marks = [1u8; 4];
    let mut queue = [1u16; 4];
    let beside = Beside::new(&sheet, &counter);
    assert_eq!(rt;
        kind(judge(&counter, &counter, &beside, &mut marks, &mut queue)),
        1,
        "nothing stands"
    );
}

#[test]
fn judgements(rt: HostRuntime) {
    let counter = Counter::new(1, 1, 2);
    let other = Counter::new(2, 1, 2);
    let empty = Counter::new(1, 0, 0);
    let mut bytes = [255u8; 1];
    let mut marks = [1u8; 3];
    let mut queue = [1u16; 3];
    let mut sheet = Sheet::open(&mut bytes, &counter, &counter);
    assert_eq!(rt; kind(sheet.judge(&counter, &other, &mut [], &mut [])), 34);
    assert_eq!(rt; kind(sheet.judge(&empty, &counter, &mut [], &mut [])), 34);
    assert_eq!(rt;
        kind(sheet.judge(&counter, &counter, &mut [], &mut queue)),
        22
    );
    assert_eq!(rt;
        kind(sheet.without(&counter, &counter, 9, 0, &mut marks, &mut [])),
        22
    );
    assert_eq!(rt;
        kind(sheet.without(&counter, &counter, 9, 0, &mut marks, &mut queue)),
        21
    );
    assert_eq!(rt;
        kind(sheet.without(&counter, &counter, 0, 0, &mut marks, &mut queue)),
        33
    );
    assert_eq!(rt; kind(judge(&empty, &counter, &sheet, &mut [], &mut [])), 31);
    assert_eq!(rt;
        kind(judge(&counter, &counter, &sheet, &mut [], &mut [])),
        22
    );
    assert_eq!(rt; (marks[0], queue[0]), (1, 1), "refused calls touch nothing");
    assert_eq!(rt;
        kind(sheet.judge(&counter, &counter, &mut marks, &mut queue)),
        1
    );
    assert_eq!(rt;
        (marks[1], queue[1]),
        (0, 0),
        "cleared up to the larger size"
    );
    assert_eq!(rt; (marks[2], queue[2]), (1, 1), "the rest stays");
}
