// Orders, as they come and as they rest, and their rank.
ghost use Rattle.std.specs.Prelude.{◌≡◌, not, if◌then◌else◌, pos, ◌-ℤ◌};
ghost use Rattle.rules.specs.Orders.{limit_of, order_ahead, order_number, order_keys};
ghost use Rattle.ranked.proofs.Lexes.{keys_connected, keys_irreflexive, keys_transitive};

use contents::{OrderSide, TimeInForce};
use ranked::Ranked;

// An order as it is placed.
#[derive(Clone, Copy, PartialEq, Eq, Debug)]
pub struct NewOrder {
    pub strategy: u32,
    pub side: OrderSide,
    // a flag beside the limit: a market order that comes with a limit has to be told from one without, to be refused
    pub market: bool,
    pub limit: i64,
    pub time_in_force: TimeInForce,
    pub quantity: u32,
}

// An order that rests, with what is left of its quantity.
#[derive(Clone, Copy, PartialEq, Eq, Debug)]
pub struct Order {
    pub strategy: u32,
    pub buy: bool,
    // as placed; nothing for a market order
    pub limit: Option<i64>,
    pub number: u32,
    pub quantity: u32,
}

// What the limit of a market order counts as: a buy's this, a sell's as far below 0.
pub const FURTHEST_LIMIT: i64 = 40_000_000;

impl Order {
    // The limit that matching uses.
    pub fn working_limit(&self) -> i64
        ensures { result ≡ limit_of self.now }
    {
        match self.limit {
            Some(limit) => limit,
            None if self.buy => FURTHEST_LIMIT,
            None => -FURTHEST_LIMIT,
        }
    }

    // By which it ranks, the lesser first. Of buys that is the higher limit: -1 - limit fits, where -limit may not.
    fn key(&self) -> (u32, bool, i64, u32)
        ensures strategy { result.0 ≡ self.now.strategy }
        ensures side { result.1 ≡ not self.now.buy }
        ensures limit { result.2 ≡ (if self.now.buy then pos 0 -ℤ pos 1 -ℤ limit_of self.now else limit_of self.now) }
        ensures number { result.3 ≡ self.now.number }
    {
        let limit = self.working_limit();
        let limit = if self.buy { -1 - limit } else { limit };
        (self.strategy, !self.buy, limit, self.number)
    }
}

impl Ranked for Order {
    ghost ahead = { order_ahead };

    ghost serial = { order_number };

    ghost connected = { keys_connected order_number order_keys };

    ghost irreflexive = { keys_irreflexive order_number order_keys };

    ghost transitive = { keys_transitive order_number order_keys };

    fn is_ahead(&self, other: &Order) -> bool {
        self.key() < other.key()
    }

    fn number(&self) -> u32 {
        self.number
    }
}
