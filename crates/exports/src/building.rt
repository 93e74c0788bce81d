// Models made by their descriptions.
use crate::descriptions::{Description, Joint, Leaf, Sets, Span};
use actions::communications::Communication;
use actions::listed::Listed;
use actions::ports::Ports;
use actions::sets::ActionSet;
use either::Either;
use models::blocking::Blocked;
use models::counters::Counter;
use models::hiding::Hidden;
use models::merging::Merge;
use models::systems::TransitionSystem;
use tables::steps_table::Table;
use transitions::lines::JoinLine;
use transitions::steps::Step;
use unfolding::counts::Counts;

// A model with a set blocked, and then one hidden.
pub type Layer<M> = Hidden<Blocked<M>>;
// Two merged, and three merged either way.
pub type Double<M, C> = Layer<Merge<Layer<M>, Layer<M>, C>>;

pub type LeftPile<M, C> = Layer<Merge<Double<M, C>, Layer<M>, C>>;

pub type RightPile<M, C> = Layer<Merge<Layer<M>, Double<M, C>, C>>;
// Any model that is described, over leaves and communications.
pub type Described<M, C> = Either<
    Either<Layer<M>, Double<M, C>>,
    Either<LeftPile<M, C>, RightPile<M, C>>,
>;
// A leaf, and a communication.
pub type Bare<'a, 'b> = Either<Counter, Table<'a, 'b>>;

pub type Joining<'c> = Either<Ports, Listed<'c>>;

// What a description is built of.
#[derive(Clone, Copy)]
pub struct Parts<M, C> {
    first: M,
    second: M,
    third: M,
    inner: C,
    outer: C,
}

// The rows that a caller lends beside descriptions.
#[derive(Clone, Copy)]
pub struct Rows<'a, 'b, 'c> {
    pub ends: &'a [u16],
    pub steps: &'b [Step],
    pub lines: &'c [JoinLine],
}

// The part of a row.
fn part<'a, T>(row: &'a [T], span: Span) -> &'a [T] {
    let to = span.to.min(row.len());
    let from = span.from.min(to);
    &row[from..to]
}

pub(crate) fn layer<M: TransitionSystem>(model: M, sets: Sets) -> Layer<M> {
    Hidden::new(
        Blocked::new(model, ActionSet::new(sets.blocked)),
        ActionSet::new(sets.hidden),
    )
}

fn bare<'a, 'b>(leaf: Leaf, rows: Rows<'a, 'b, '_>) -> Bare<'a, 'b> {
    if !leaf.is_table {
        return Either::Left(Counter::new(leaf.cap, leaf.take, leaf.give));
    }
    let counts = Counts {
        terms: leaf.terms,
        steps: leaf.count,
        start: leaf.start,
    };
    Either::Right(Table::new(
        part(rows.ends, leaf.ends),
        part(rows.steps, leaf.steps),
        counts,
    ))
}

fn joining<'c>(joint: Joint, rows: Rows<'_, '_, 'c>) -> Joining<'c> {
    if joint.by_lines {
        Either::Right(Listed::new(part(rows.lines, joint.lines)))
    } else {
        Either::Left(Ports::new())
    }
}

pub(crate) fn parts_of<'a, 'b, 'c>(
    d: &Description,
    rows: Rows<'a, 'b, 'c>,
) -> Parts<Bare<'a, 'b>, Joining<'c>> {
    Parts {
        first: bare(d.first, rows),
        second: bare(d.second, rows),
        third: bare(d.third, rows),
        inner: joining(d.inner, rows),
        outer: joining(d.outer, rows),
    }
}

fn double<M: TransitionSystem + Copy, C: Communication + Copy>(
    d: &Description,
    parts: Parts<M, C>,
) -> Double<M, C> {
    let left = layer(parts.first, d.first.sets);
    let right = layer(parts.second, d.second.sets);
    layer(Merge::new(left, right, parts.inner), d.inner.sets)
}

fn left_pile<M: TransitionSystem + Copy, C: Communication + Copy>(
    d: &Description,
    parts: Parts<M, C>,
) -> LeftPile<M, C> {
    let third = layer(parts.third, d.third.sets);
    layer(
        Merge::new(double(d, parts), third, parts.outer),
        d.outer.sets,
    )
}

fn right_pile<M: TransitionSystem + Copy, C: Communication + Copy>(
    d: &Description,
    parts: Parts<M, C>,
) -> RightPile<M, C> {
    let third = layer(parts.third, d.third.sets);
    layer(
        Merge::new(third, double(d, parts), parts.outer),
        d.outer.sets,
    )
}

// The model of a description.
pub(crate) fn build<M: TransitionSystem + Copy, C: Communication + Copy>(
    d: &Description,
    parts: Parts<M, C>,
) -> Described<M, C> {
    match d.shape {
        0 => Either::Left(Either::Left(layer(parts.first, d.first.sets))),
        1 => Either::Left(Either::Right(double(d, parts))),
        2 => Either::Right(Either::Left(left_pile(d, parts))),
        _ => Either::Right(Either::Right(right_pile(d, parts))),
    }
}
