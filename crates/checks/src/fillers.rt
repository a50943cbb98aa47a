// What fills the memory of the tests, and the lots that they quote and post.
use lots::PostedLot;
use rules::Order;
use simple::{Lot, Side};

// A lot of a Priority Customer or a maker, at a price and of a size.
pub(crate) fn lot(customer: bool, price: u32, size: u32) -> Lot {
    Lot {
        price,
        size,
        customer,
    }
}

// A place for a lot.
pub(crate) const NO_LOT: PostedLot = PostedLot {
    series: 0,
    side: Side::Bid,
    lot: Lot {
        price: 0,
        size: 0,
        customer: false,
    },
    number: 0,
};

// A place for an order.
pub(crate) const NO_ORDER: Order = Order {
    strategy: 0,
    buy: false,
    limit: Some(0),
    number: 0,
    quantity: 0,
};
