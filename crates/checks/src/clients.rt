// A client of the engine, which knows of the calls only what they promise.
ghost use Rattle.std.specs.Prelude.{◌≤◌, IfOk};

use depth::DepthBook;
use engine::Engine;
use holds::HoldLayer;
use refusals::Refusal;
use rules::{Execution, NewOrder, Order};
use simple::SimpleBook;
use strategies::Leg;

// Places an order over a lent depth book, evaluates its strategy, and takes the order back. What place executed and
// cancelled of it and what came back are together no more than its quantity.
pub fn day(
    memory: &mut [Order],
    book: &mut DepthBook,
    executions: &mut [Execution],
    legs: &[Leg; 4],
    order: NewOrder,
) -> Result<u32, Refusal>
    ensures { IfOk result (λ n. n ≤ order.quantity) }
{
    let mut engine = Engine::open(memory);
    let mut layer = HoldLayer::new(book);
    let _ = engine.define(2, legs)?;
    let placed = engine.place(&mut layer, executions, order)?;
    let _ = engine.evaluate(&mut layer, executions, order.strategy);
    let back = engine.cancel(placed.number)?;
    Ok(placed.executed + placed.cancelled + back)
}

#[cfg(test)]
mod tests {
    use super::*;
    use crate::fillers::{NO_LOT, NO_ORDER, lot};
    use contents::{OrderSide, TimeInForce};
    use simple::Side;
    use std::test::Fail;

    const NO_EXECUTION: Execution = Execution {
        strategy: 0,
        price: 0,
        quantity: 0,
        buy: 0,
        sell: 0,
        legs: [0; 4],
    };

    fn leg(series: u32, bought: bool) -> Leg {
        Leg {
            series,
            bought,
            ratio: 1,
        }
    }

    #[test]
    fn a_day_comes_to_its_quantity(rt: HostRuntime) -> Result<(), Fail> {
        let mut places = [NO_LOT; 1024];
        let mut book = DepthBook::open(&mut places);
        assert!(rt; book.post(10, Side::Bid, lot(false, 300, 3)).is_ok());
        assert!(rt; book.post(10, Side::Offer, lot(false, 310, 3)).is_ok());
        assert!(rt; book.post(11, Side::Bid, lot(false, 120, 4)).is_ok());
        assert!(rt; book.post(11, Side::Offer, lot(false, 125, 4)).is_ok());
        let order = NewOrder {
            strategy: 0,
            side: OrderSide::Buy,
            market: false,
            limit: 190,
            time_in_force: TimeInForce::Day,
            quantity: 5,
        };
        let legs = [leg(10, true), leg(11, false), leg(0, false), leg(0, false)];
        let mut executions = [NO_EXECUTION; 2];
        let mut memory = [NO_ORDER; 512];
        let came_to = day(&mut memory, &mut book, &mut executions, &legs, order)?;
        assert_eq!(rt; came_to, 5);
        // three were legged, so one contract is left of the bid
        assert!(rt; book.take(11, Side::Bid, 2).is_err());
        assert!(rt; book.take(11, Side::Bid, 1).is_ok());
        Ok(())
    }
}
