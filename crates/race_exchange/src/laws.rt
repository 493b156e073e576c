//! The laws of the exchange. Each function does nothing, and its contract is the law.
ghost use Rattle.race_exchange.specs.Laws.{HasAnOrder, OtherOrdersAreLegal, OtherOrdersDoTheSame};
ghost use Rattle.race_exchange.specs.Laws.{OtherOrdersHaveTheSameRaces};

use race_records::Event;

/// Each list is the same but for the order of independent neighbours as one in which none are turned.
pub fn has_an_order(_events: &[Event])
    ensures { HasAnOrder _events.now }
{}

/// What is the same but for the order of independent neighbours is legal too.
pub fn other_orders_are_legal(_events: &[Event])
    ensures { OtherOrdersAreLegal _events.now }
{}

/// There each goroutine does the same.
pub fn other_orders_do_the_same(_events: &[Event])
    ensures { OtherOrdersDoTheSame _events.now }
{}

/// And the same variables have a race.
pub fn other_orders_have_the_same_races(_events: &[Event])
    ensures { OtherOrdersHaveTheSameRaces _events.now }
{}
