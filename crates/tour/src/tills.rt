// The models of the morning: the house rule, the two tills and a gate.
use actions::ports::Ports;
use actions::sets::ActionSet;
use models::blocking::Blocked;
use models::counters::Counter;
use models::merging::Merge;
use transitions::lines::JoinLine;

pub const CAP: usize = 2;

pub const SALE: u8 = 3;

pub const REFUND: u8 = 6;

// What a basket and the booking do alone. By the ports, asking (1) and granting (2) join to a sale (3), returning (4) and
// releasing (5) to a refund (6).
const ASK: u8 = 1;

const GRANT: u8 = 2;

const RETURN: u8 = 4;

const RELEASE: u8 = 5;

// The set of what either does alone: 2 to the power of each.
const ALONE: u64 = 0b11_0110;

// The till that counts each basket by itself.
pub type Till = Merge<Counter, Counter, Ports>;

// The till whose baskets sell only together with the booking's own counter.
pub type BookedTill = Blocked<Merge<Merge<Counter, Counter, Ports>, Counter, Ports>>;

// The gate admits (action 9) and lets out (action 11) one guest at a time; a sale joins with an admission.
const ADMIT: u8 = 9;

const LET_OUT: u8 = 11;

const SALE_AT_GATE: u8 = 10;

pub const GATE_LINES: [JoinLine; 1] = [JoinLine {
    a: SALE,
    b: ADMIT,
    joint: SALE_AT_GATE,
}];

pub fn gate() -> Counter {
    Counter::new(1, ADMIT, LET_OUT)
}

pub fn rule() -> Counter {
    Counter::new(CAP, SALE, REFUND)
}

pub fn till() -> Till {
    Merge::new(rule(), rule(), Ports::new())
}

pub fn booked_till() -> BookedTill {
    let basket = Counter::new(CAP, ASK, RETURN);
    let booking = Counter::new(CAP, GRANT, RELEASE);
    let baskets = Merge::new(basket, basket, Ports::new());
    Blocked::new(
        Merge::new(baskets, booking, Ports::new()),
        ActionSet::new(ALONE),
    )
}
