// The limits on both sides.
use crate::wide::Wide;
use actions::ports::Ports;
use actions::sets::ActionSet;
use models::counters::Counter;
use models::merging::Merge;
use models::systems::TransitionSystem;

#[test]
fn caps_of_a_counter(rt: HostRuntime) {
    assert_eq!(rt;
        Counter::new(4095, 1, 2).states(),
        4096,
        "cap 4,095 is a counter"
    );
    assert_eq!(rt; Counter::new(4096, 1, 2).states(), 0, "cap 4,096 is empty");
    assert_eq!(rt; Counter::new(4096, 1, 2).width(), 0);
    assert_eq!(rt;
        Counter::new(3, 63, 63).states(),
        4,
        "both actions may be the same"
    );
    assert_eq!(rt;
        Counter::new(3, 0, 2).states(),
        0,
        "the silent action counts nothing"
    );
    assert_eq!(rt; Counter::new(3, 1, 64).states(), 0, "64 is no action");
    assert_eq!(rt; Counter::new(0, 1, 2).states(), 1);
    assert!(rt;
        Counter::new(0, 1, 2).step(0, 0).is_none(),
        "cap 0 has no step"
    );
}

#[test]
fn widths_of_a_merge(rt: HostRuntime) {
    let fits = Merge::new(Wide::new(63), Wide::new(63), Ports::new());
    assert_eq!(rt; fits.states(), 1, "63 and 63 merge");
    assert_eq!(rt; fits.width(), 4095);
    let passes = Merge::new(Wide::new(63), Wide::new(64), Ports::new());
    assert_eq!(rt; passes.states(), 0, "63 and 64 do not");
    assert_eq!(rt; passes.width(), 0);
}

#[test]
fn states_of_a_merge(rt: HostRuntime) {
    let fits = Merge::new(Counter::new(63, 1, 2), Counter::new(63, 4, 5), Ports::new());
    assert_eq!(rt; fits.states(), 4096, "64 times 64 states merge");
    let passes = Merge::new(Counter::new(63, 1, 2), Counter::new(64, 4, 5), Ports::new());
    assert_eq!(rt; passes.states(), 0, "64 times 65 do not");
    let over_empty = Merge::new(
        Counter::new(4096, 1, 2),
        Counter::new(1, 4, 5),
        Ports::new(),
    );
    assert_eq!(rt; over_empty.states(), 0, "over an empty model");
}

#[test]
fn members_of_a_set(rt: HostRuntime) {
    let odd = ActionSet::new(3);
    assert!(rt; !odd.contains(0), "no set holds the silent action");
    assert!(rt; odd.contains(1));
    assert!(rt; !odd.contains(2));
    let last = ActionSet::new(1 << 63);
    assert!(rt; last.contains(63));
    assert!(rt; !last.contains(64), "64 is no action");
}
