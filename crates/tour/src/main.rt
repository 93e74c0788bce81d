// The oversold morning, told in numbered notes: a till that holds a booking's cap against each basket sells on where the house
// rule stops; the comparer names the step; a till that holds the cap against the booking matches the rule; a till is read from
// text and unfolded.
#![tactic(auto)]

mod checking;
mod comparing;
mod from_text;
mod selling;
mod tills;

use crate::checking::check_sheet;
use crate::comparing::{Baskets, compare};
use crate::from_text::read_till;
use crate::selling::{describe, look_after, sell_out};
use crate::tills::{booked_till, rule, till};
use std::io;

// The till that counts each basket by itself.
fn oversold(rt: &HostRuntime) -> io::Result<()> {
    let rule = rule();
    let till = till();
    describe(rt, &rule, &till)?;
    let allowed = sell_out(rt, 3, "rule", &rule)?;
    let sold = sell_out(rt, 4, "till", &till)?;
    look_after(rt, 5, "rule", &rule, allowed)?;
    look_after(rt, 6, "till", &till, allowed)?;
    let extra = sold.saturating_sub(allowed);
    println!(rt;
        "7. So the till sold {extra} passes more than the rule allows. A comparison finds that with no trial sale:"
    )?;
    compare(rt, 8, &rule, &till, Baskets::Alone)
}

// The till whose baskets sell only together with the booking.
fn corrected(rt: &HostRuntime) -> io::Result<()> {
    let rule = rule();
    let till = booked_till();
    println!(rt;
        "10. The corrected till holds the cap against the booking: a basket sells only together with the booking's own"
    )?;
    println!(rt;
        "    counter. It is the baskets merged with that counter, and what either does alone is blocked."
    )?;
    compare(rt, 11, &rule, &till, Baskets::Booked)?;
    check_sheet(rt, &rule, &till)
}

fn main(rt: HostRuntime) -> io::Result<()> {
    println!(rt; "The oversold morning: one booking, two baskets.")?;
    oversold(&rt)?;
    corrected(&rt)?;
    read_till(&rt)
}
