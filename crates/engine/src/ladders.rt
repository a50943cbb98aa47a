// Why a call is refused: its tests in order, the first that fails.
ghost use Rattle.std.specs.Prelude.{◌≡◌, ◌&&◌, not, nat_le, is_some, Some, None, MatchResult};
ghost use Rattle.std.specs.Result.{result_err};
ghost use Rattle.refusals.specs.declared.reason.Reason.TheVariants.{Memory, Strategy, NotResting};
ghost use Rattle.refusals.specs.declared.station.Station.TheVariants.{Opening};
ghost use Rattle.refusals.specs.Refusals.{refused_at};
ghost use Rattle.strategies.specs.Strategies.{strategy_legs};
ghost use Rattle.rules.specs.Orders.{order_with};
ghost use Rattle.rules.specs.States.{strategy_at};
ghost use Rattle.rules.specs.Limits.{most_quantity};
ghost use Rattle.rules.specs.Calls.{test, limit_lawful, place_refusal, define_refusal};
ghost use Rattle.engine.specs.Model.{model};

use crate::held::Engine;
use crate::limits::{MOST_ACCEPTED, MOST_QUANTITY, ORDER_PLACES, STRATEGY_PLACES};
use refusals::{Reason, Refusal, Station};
use rules::{FURTHEST_LIMIT, NewOrder, Order};
use stepping::{Defined, order_with};
use strategies::StrategyRow;

// Whether an order's limit lies within the furthest, or is 0 for a market order.
fn limit_lawful(order: &NewOrder) -> bool
    ensures { result ≡ limit_lawful order.now.market order.now.limit }
{
    if order.market {
        order.limit == 0
    } else {
        (-FURTHEST_LIMIT..=FURTHEST_LIMIT).contains(&order.limit)
    }
}

// Whether a quantity is one that an order may have.
fn quantity_lawful(quantity: u32) -> bool
    ensures { result ≡ (nat_le 1 quantity && nat_le quantity most_quantity) }
{
    (1..=MOST_QUANTITY).contains(&quantity)
}

impl<'a> Engine<'a> {
    // Whether the memory has as many places as an engine needs.
    pub(crate) fn is_ready(&self) -> bool
        ensures { result ≡ (model self.now).ready }
    {
        self.orders.capacity() == ORDER_PLACES
    }

    // Refuses every call on other memory.
    pub(crate) fn check_ready(&self) -> Result<(), Refusal>
        ensures { result_err result ≡ test (not (model self.now).ready) (refused_at Opening Memory) None }
    {
        if self.is_ready() {
            Ok(())
        } else {
            Err(Refusal::at(Station::Opening, Reason::Memory))
        }
    }

    // The strategy of a number, or the refusal of a call at that station.
    pub(crate) fn defined(&self, station: Station, number: u32) -> Result<Defined, Refusal>
        ensures refusal { result_err result ≡ test (not (model self.now).ready) (refused_at Opening Memory) (test (not (is_some (strategy_at (model self.now).strategies number))) (refused_at station Strategy) None) }
        ensures strategy { MatchResult result (λ x. (Some (strategy_legs x.strategy) ≡ strategy_at (model self.now).strategies number) × (x.number ≡ number)) (λ _. Unit {0}) }
    {
        self.check_ready()?;
        self.table
            .strategy(number)
            .ok_or(Refusal::at(station, Reason::Strategy))
    }

    // The order that rests under a number, or the refusal of a call at that station.
    pub(crate) fn resting(&self, station: Station, number: u32) -> Result<Order, Refusal>
        ensures refusal { result_err result ≡ test (not (model self.now).ready) (refused_at Opening Memory) (test (not (is_some (order_with number (model self.now).orders))) (refused_at station NotResting) None) }
        ensures order { MatchResult result (λ o. Some o ≡ order_with number (model self.now).orders) (λ _. Unit {0}) }
    {
        self.check_ready()?;
        order_with(&self.orders, number).ok_or(Refusal::at(station, Reason::NotResting))
    }

    // Why a strategy is not defined, if it is not.
    pub(crate) fn check_define(&self, row: &StrategyRow) -> Result<(), Refusal>
        ensures { result_err result ≡ define_refusal (model self.now) row.now }
    {
        self.check_ready()?;
        row.check()
            .map_err(|why| Refusal::at(Station::Define, why))?;
        if self.table.stands(row) {
            return Err(Refusal::at(Station::Define, Reason::SameLegs));
        }
        if self.table.len() >= STRATEGY_PLACES {
            return Err(Refusal::at(Station::Define, Reason::TableFull));
        }
        Ok(())
    }

    // The strategy of an order, or why the order is not accepted.
    pub(crate) fn check_place(&self, order: &NewOrder) -> Result<Defined, Refusal>
        ensures refusal { result_err result ≡ place_refusal (model self.now) order.now }
        ensures strategy { MatchResult result (λ x. (Some (strategy_legs x.strategy) ≡ strategy_at (model self.now).strategies order.now.strategy) × (x.number ≡ order.now.strategy)) (λ _. Unit {0}) }
    {
        let strategy = self.defined(Station::Place, order.strategy)?;
        if !quantity_lawful(order.quantity) {
            return Err(Refusal::at(Station::Place, Reason::Quantity));
        }
        if !limit_lawful(order) {
            return Err(Refusal::at(Station::Place, Reason::Limit));
        }
        if self.orders.len() >= ORDER_PLACES {
            return Err(Refusal::at(Station::Place, Reason::BookFull));
        }
        if self.accepted >= MOST_ACCEPTED {
            return Err(Refusal::at(Station::Place, Reason::NumbersSpent));
        }
        Ok(strategy)
    }
}
