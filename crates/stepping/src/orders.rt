// The orders at rest, by strategy and by number.
ghost use Rattle.std.specs.Prelude.{◌≡◌};
ghost use Rattle.ranked.specs.Held.{items, room};
ghost use Rattle.rules.specs.Orders.{best_order, reduced, dropped, order_with};

use ranked::RankedList;
use rules::Order;

// The best buy or sell of a strategy: the first in rank. A walk from the front: no type says that the list is in rank.
pub fn best_order(orders: &RankedList<Order>, strategy: u32, buy: bool) -> Option<Order>
    ensures { result ≡ best_order strategy buy (items orders.now) }
{
    orders
        .entries()
        .iter()
        .find(|order| order.strategy == strategy && order.buy == buy)
        .copied()
}

// The order of a number.
pub fn order_with(orders: &RankedList<Order>, number: u32) -> Option<Order>
    ensures { result ≡ order_with number (items orders.now) }
{
    let place = orders.find(number)?;
    orders.get(place)
}

// Each change says that the list keeps its room: a fact of before and after, which no type can hold.

// Takes a quantity off the order of a number; with nothing left it rests no more.
pub fn reduce(orders: &mut RankedList<Order>, number: u32, quantity: u32)
    ensures items { items orders.new ≡ reduced number quantity (items orders.old) }
    ensures room { room orders.new ≡ room orders.old }
{
    let Some(place) = orders.find(number) else {
        return;
    };
    let Some(mut order) = orders.get(place) else {
        return;
    };
    if quantity < order.quantity {
        order.quantity -= quantity;
        let _ = orders.replace(place, order);
    } else {
        let _ = orders.remove(place);
    }
}

// Removes the order of a number.
pub fn drop_order(orders: &mut RankedList<Order>, number: u32)
    ensures items { items orders.new ≡ dropped number (items orders.old) }
    ensures room { room orders.new ≡ room orders.old }
{
    if let Some(place) = orders.find(number) {
        let _ = orders.remove(place);
    }
}
