// Selling from a model until no sale is left.
use crate::tills::{CAP, REFUND, SALE};
use models::following::{first_step, follow};
use models::systems::TransitionSystem;
use std::io;

const TURNS: u16 = 100;

pub fn describe(
    rt: &HostRuntime,
    rule: &impl TransitionSystem,
    till: &impl TransitionSystem,
) -> io::Result<()> {
    let states = rule.states();
    let places = rule.width();
    println!(rt;
        "1. The house rule caps a booking at {CAP} passes. Its model is a counter: a sale (action {SALE}) takes a pass,"
    )?;
    println!(rt;
        "   a refund (action {REFUND}) gives one back. It has {states} states and {places} places to a state."
    )?;
    let states = till.states();
    let places = till.width();
    println!(rt;
        "2. The till holds the cap of {CAP} against each of two baskets. Its model is two such counters merged,"
    )?;
    println!(rt;
        "   with no communication between them. It has {states} states and {places} places to a state."
    )
}

// How many passes a model sells; it says the state that the model then stands in.
pub fn sell_out(
    rt: &HostRuntime,
    note: u8,
    name: &str,
    model: &impl TransitionSystem,
) -> io::Result<u16> {
    let start = model.start();
    let sold = follow(model, SALE, TURNS);
    let passes = sold.turns;
    let last = sold.state;
    println!(rt;
        "{note}. Selling by the {name} from state {start} until no sale is left: {passes} passes, and it stands in state {last}."
    )?;
    Ok(passes)
}

// Where a model stands after some sales, and whether it sells on from there.
pub fn look_after(
    rt: &HostRuntime,
    note: u8,
    name: &str,
    model: &impl TransitionSystem,
    passes: u16,
) -> io::Result<()> {
    let state = follow(model, SALE, passes).state;
    match first_step(model, SALE, state) {
        Some(sale) => {
            let place = sale.place;
            let target = sale.target;
            println!(rt;
                "{note}. After {passes} passes the {name} stands in state {state} and sells on: place {place} holds a sale to state {target}."
            )
        }
        None => println!(rt;
            "{note}. After {passes} passes the {name} stands in state {state}, and no place there holds a sale."
        ),
    }
}
