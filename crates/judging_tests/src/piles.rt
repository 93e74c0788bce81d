// Two piles of models, a merge whose partners only join with the joint action hidden; and merges with a third model beside a sheet.
use actions::ports::Ports;
use actions::sets::ActionSet;
use judging::calls::judge;
use models::blocking::Blocked;
use models::counters::Counter;
use models::hiding::Hidden;
use models::merging::Merge;
use pairings::besides::Beside;
use pairings::standing::Pairing;
use sheets::sheet::Sheet;
use std::test::Fail;

fn pile(take: u8, give: u8) -> Hidden<Blocked<Merge<Counter, Counter, Ports>>> {
    let merge = Merge::new(
        Counter::new(1, take, give),
        Counter::new(1, give, take),
        Ports::new(),
    );
    Hidden::new(Blocked::new(merge, ActionSet::new(6)), ActionSet::new(8))
}

#[test]
fn piles_match(rt: HostRuntime) -> Result<(), Fail> {
    let left = pile(1, 2);
    let right = pile(2, 1);
    let mut bytes = [255u8; 2];
    let mut marks = [1u8; 4];
    let mut queue = [1u16; 4];
    let mut sheet = Sheet::open(&mut bytes, &left, &right);
    assert!(rt; sheet.pair(0, 0).is_ok());
    assert!(rt; sheet.pair(3, 3).is_ok());
    match sheet.judge(&left, &right, &mut marks, &mut queue) {
        Ok(Ok(())) => (),
        _ => {
            assert!(rt; false, "the piles match");
            return Ok(())
        },
    }
    match sheet.without(&left, &right, 3, 3, &mut marks, &mut queue) {
        Ok(Err(_)) => (),
        _ => {
            assert!(rt; false, "the joint step leads to no pair");
            return Ok(())
        },
    }
    assert!(rt; sheet.stands(3, 3), "the pair stands as before");
    Ok(())
}

#[test]
fn merges_beside_match(rt: HostRuntime) -> Result<(), Fail> {
    let left = Counter::new(1, 1, 2);
    let right = Counter::new(1, 1, 2);
    let third = Counter::new(1, 2, 1);
    let mut bytes = [255u8; 1];
    let mut marks = [1u8; 4];
    let mut queue = [1u16; 4];
    let mut sheet = Sheet::open(&mut bytes, &left, &right);
    assert!(rt; sheet.pair(0, 0).is_ok());
    assert!(rt; sheet.pair(1, 1).is_ok());
    let beside = Beside::new(&sheet, &third);
    let first = Merge::new(left, third, Ports::new());
    let second = Merge::new(right, third, Ports::new());
    match judge(&first, &second, &beside, &mut marks, &mut queue) {
        Ok(Ok(())) => {
            assert!(rt; true);
            Ok(())
        },
        _ => {
            assert!(rt; false, "the pairs beside the third model are a match");
            Ok(())
        },
    }
}
