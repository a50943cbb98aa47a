// What a step is.
ghost use Rattle.std.specs.Prelude.{◌≡◌};
ghost use Rattle.rules.specs.Steps.{number_in, execution_of};
ghost use Rattle.stepping.specs.Stepping.{told};

use pricing::NetPrice;
use rules::{Execution, Order};

// A buy and a sell that trade with each other, or an order that trades with the simple book, so much of it.
#[derive(Clone, Copy, PartialEq, Eq, Debug)]
pub enum Step {
    Pair {
        buy: Order,
        sell: Order,
        at: NetPrice,
    },
    Legged {
        order: Order,
        quantity: u32,
        at: NetPrice,
    },
}

impl Step {
    // The number of the order that is legged; of a pair, that of its buy.
    pub(crate) fn number(&self) -> u32
        ensures { result ≡ number_in (told self.now) }
    {
        match self {
            Step::Pair { buy, .. } => buy.number,
            Step::Legged { order, .. } => order.number,
        }
    }

    // How much trades.
    pub(crate) fn quantity(&self) -> u32
        ensures { result ≡ (execution_of 0 (told self.now)).quantity }
    {
        match self {
            Step::Pair { buy, sell, .. } => buy.quantity.min(sell.quantity),
            Step::Legged { quantity, .. } => *quantity,
        }
    }

    // Its record.
    pub(crate) fn execution(&self, strategy: u32) -> Execution
        ensures { result ≡ execution_of strategy (told self.now) }
    {
        let (buy, sell, at) = match self {
            Step::Pair { buy, sell, at } => (buy.number, sell.number, at),
            Step::Legged { order, at, .. } if order.buy => (order.number, 0, at),
            Step::Legged { order, at, .. } => (0, order.number, at),
        };
        Execution {
            strategy,
            price: at.price,
            quantity: self.quantity(),
            buy,
            sell,
            legs: at.legs,
        }
    }
}
