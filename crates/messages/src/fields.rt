// The fields of messages as numbers, and the greatest that each may have.
ghost use Rattle.std.specs.Prelude.{◌≡◌, ℕ, ◌-◌, ◌^◌, ◌≤◌, if◌then◌else◌};
ghost use Rattle.messages.specs.Layout.{all_ones};

use contents::{PlaceFields, TimeInForce};

// The fields that placing, cancelling and evaluating share: their values, or the greatest value that each may have.
#[derive(Clone, Copy)]
pub(crate) struct OrderFields {
    pub(crate) strategy: u64,
    pub(crate) side: u64,
    pub(crate) market: u64,
    pub(crate) time_in_force: u64,
    pub(crate) limit: u64,
    pub(crate) quantity: u64,
    pub(crate) number: u64,
}

// A field that is not used is 0.
pub(crate) const NONE: OrderFields = OrderFields {
    strategy: 0,
    side: 0,
    market: 0,
    time_in_force: 0,
    limit: 0,
    quantity: 0,
    number: 0,
};

// Placing uses all but the number.
pub(crate) const PLACE: OrderFields = OrderFields {
    strategy: u8::MAX as u64,
    side: 1,
    market: 1,
    time_in_force: TimeInForce::ImmediateOrCancel as u64,
    limit: u32::MAX as u64,
    quantity: u16::MAX as u64,
    number: 0,
};

// Cancelling uses only the number.
pub(crate) const CANCEL: OrderFields = OrderFields {
    number: u32::MAX as u64,
    ..NONE
};

// Evaluating uses only the strategy.
pub(crate) const EVALUATE: OrderFields = OrderFields {
    strategy: u8::MAX as u64,
    ..NONE
};

impl OrderFields {
    ghost use Rattle.std.specs.Bool.{then_some};
    ghost use Rattle.contents.specs.declared.message.Message.TheVariants.{Place};
    ghost use Rattle.messages.specs.Layout.{order_layout};
    ghost use Rattle.messages.specs.Limits.{limit_fits};
    ghost use Rattle.messages.specs.Writing.{order_fields_of, order_values, all_within};

    // The fields of a message that places an order, if 32 bits hold its limit in two's complement.
    pub(crate) fn placing(order: &PlaceFields) -> Option<OrderFields>
        ensures { result ≡ then_some (limit_fits order.now.limit) (order_fields_of (Place order.now)) }
    {
        let limit = i32::try_from(order.limit).ok()?;
        Some(OrderFields {
            strategy: order.strategy,
            side: order.side.into(),
            market: order.market.into(),
            time_in_force: order.time_in_force,
            limit: limit.cast_unsigned().into(),
            quantity: order.quantity,
            number: 0,
        })
    }

    // Whether each value is at most the greatest that it may have.
    pub(crate) fn within(&self, greatest: &OrderFields) -> bool
        ensures { result ≡ all_within (order_layout greatest.now) (order_values self.now) }
    {
        self.strategy <= greatest.strategy
            && self.side <= greatest.side
            && self.market <= greatest.market
            && self.time_in_force <= greatest.time_in_force
            && self.limit <= greatest.limit
            && self.quantity <= greatest.quantity
            && self.number <= greatest.number
    }
}

// The greatest value of a part of a leg, which is 0 beyond the count.
pub(crate) fn most(within: bool, width: usize) -> u64
    requires { width ≤ 32 }
    ensures { result ≡ (if within then all_ones width else 0) }
{
    if within { (1 << width) - 1 } else { 0 }
}
