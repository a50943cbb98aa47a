// The sides of orders and legs, the codes for them, and what is printed of them.
ghost use Rattle.std.specs.Prelude.{◌≡◌, Some};
ghost use Rattle.contents.specs.Sides.{order_side_code, leg_side_code, side_text, sign_text};

use std::fmt;

// The side of an order.
#[derive(Clone, Copy, PartialEq, Eq, Debug)]
pub enum OrderSide {
    Buy = 0,
    Sell = 1,
}

// What is done with a leg when its strategy is bought.
#[derive(Clone, Copy, PartialEq, Eq, Debug)]
pub enum LegSide {
    Bought = 0,
    Sold = 1,
}

// The code of the side of an order in a message.
impl From<OrderSide> for u64 {
    ghost from_gives = { λ side code. code ≡ order_side_code side };

    fn from(side: OrderSide) -> u64 {
        side as u64
    }
}

// The code of the side of a leg in a message.
impl From<LegSide> for u64 {
    ghost from_gives = { λ side code. code ≡ leg_side_code side };

    fn from(side: LegSide) -> u64 {
        side as u64
    }
}

// What programs print of the side of an order.
impl fmt::Display for OrderSide {
    ghost output = { λ side. Some (side_text side) };

    fn fmt<W: fmt::Write>(&self, f: &mut fmt::Formatter<W>) -> fmt::Result {
        f.write_str(match self {
            OrderSide::Buy => "buy",
            OrderSide::Sell => "sell",
        })
    }
}

// What programs print of the side of a leg: a sign.
impl fmt::Display for LegSide {
    ghost output = { λ side. Some (sign_text side) };

    fn fmt<W: fmt::Write>(&self, f: &mut fmt::Formatter<W>) -> fmt::Result {
        f.write_str(match self {
            LegSide::Bought => "+",
            LegSide::Sold => "-",
        })
    }
}
