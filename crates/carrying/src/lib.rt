// How an accepted order and an evaluation are carried out.

#![tactic(auto)]

ghost use Rattle.std.specs.Prelude.{◌≡◌, ◌||◌, length};
ghost use Rattle.ranked.specs.Held.{items, room};
ghost use Rattle.strategies.specs.Strategies.{strategy_legs};
ghost use Rattle.rules.specs.Orders.{left_of};
ghost use Rattle.rules.specs.Steps.{trading, steps, rests};
ghost use Rattle.rules.specs.Calls.{entered, outcome};
ghost use Rattle.carrying.specs.Carried.{Carried, Ended};

use contents::{OrderSide, TimeInForce};
use ranked::RankedList;
use rules::{Evaluated, Execution, NewOrder, Order, Outcome, Placed};
use simple::SimpleBook;
use stepping::{Defined, Stepped, drop_order, order_with};

// An accepted order, under its number.
pub fn entered(number: u32, order: NewOrder) -> Order
    ensures { result ≡ entered number order }
{
    Order {
        strategy: order.strategy,
        buy: order.side == OrderSide::Buy,
        limit: (!order.market).then_some(order.limit),
        number,
        quantity: order.quantity,
    }
}

// What is left of the order of a number.
fn left_of(orders: &RankedList<Order>, number: u32) -> u32
    ensures { result ≡ left_of number (items orders.now) }
{
    order_with(orders, number).map_or(0, |order| order.quantity)
}

// The orders and the book come as two parameters, here and below: the engine owns the one, its caller lends the other. That the
// book's frame stays is each function's to say, since the book is the caller's.

// At rest when no step is possible: none was left, or none is left now.
fn outcome_of<B: SimpleBook>(
    orders: &RankedList<Order>,
    book: &mut B,
    strategy: &Defined,
    settled: bool,
) -> Outcome
    ensures answer { result ≡ outcome (settled || rests (strategy_legs strategy.now.strategy) strategy.now.number (trading (items orders.now) (B.SimpleBook.lots book.old))) }
    ensures lots { B.SimpleBook.lots book.new ≡ B.SimpleBook.lots book.old }
    ensures frame { B.SimpleBook.frame book.new ≡ B.SimpleBook.frame book.old }
{
    if settled || strategy.rests(orders, book) {
        Outcome::AtRest
    } else {
        Outcome::More
    }
}

// Steps of a strategy, and whether it rests after them.
pub fn evaluate_with<B: SimpleBook>(
    orders: &mut RankedList<Order>,
    book: &mut B,
    executions: &mut [Execution],
    strategy: &Defined,
) -> Evaluated
    ensures equation { Ended (strategy_legs strategy.now.strategy) strategy.now.number (steps (strategy_legs strategy.now.strategy) strategy.now.number (length executions.old) (trading (items orders.old) (B.SimpleBook.lots book.old))) executions.old executions.new (trading (items orders.new) (B.SimpleBook.lots book.new)) result }
    ensures room { room orders.new ≡ room orders.old }
    ensures frame { B.SimpleBook.frame book.new ≡ B.SimpleBook.frame book.old }
{
    let Stepped { records, settled } = strategy.run(orders, book, executions);
    Evaluated {
        records,
        outcome: outcome_of(orders, book, strategy, settled),
    }
}

// Steps of the strategy of an order that was just entered, and what they leave of the order.
pub fn place_with<B: SimpleBook>(
    orders: &mut RankedList<Order>,
    book: &mut B,
    executions: &mut [Execution],
    strategy: &Defined,
    order: NewOrder,
    number: u32,
) -> Placed
    ensures equation { Carried order number (strategy_legs strategy.now.strategy) strategy.now.number (steps (strategy_legs strategy.now.strategy) strategy.now.number (length executions.old) (trading (items orders.old) (B.SimpleBook.lots book.old))) executions.old executions.new (trading (items orders.new) (B.SimpleBook.lots book.new)) result }
    ensures room { room orders.new ≡ room orders.old }
    ensures frame { B.SimpleBook.frame book.new ≡ B.SimpleBook.frame book.old }
{
    let Stepped { records, settled } = strategy.run(orders, book, executions);
    let left = left_of(orders, number);
    let immediate = order.time_in_force == TimeInForce::ImmediateOrCancel;
    if immediate {
        drop_order(orders, number);
    }
    let outcome = outcome_of(orders, book, strategy, settled);
    Placed {
        number,
        records,
        executed: order.quantity.saturating_sub(left),
        cancelled: if immediate { left } else { 0 },
        outcome,
    }
}
