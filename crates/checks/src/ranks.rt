// A small ranking, and a list of its entries.
ghost use Rattle.std.specs.Prelude.{[], ◌∷◌, pos};
ghost use Rattle.ranked.specs.Lex.{by_keys, first_if, better};
ghost use Rattle.ranked.proofs.Lexes.{keys_connected, keys_irreflexive, keys_transitive};

use ranked::{Ranked, RankedList};

// A price of a buyer or a seller: buyers first, then the better price, then the lower number.
#[derive(Clone, Copy)]
struct Interest {
    buy: bool,
    price: u32,
    number: u32,
}

impl Ranked for Interest {
    ghost ahead = { by_keys ((λ x. first_if x.buy) ∷ (λ x. better x.buy (pos x.price)) ∷ []) (λ x. x.number) };

    ghost serial = { λ x. x.number };

    ghost connected = { keys_connected (λ x. x.number) ((λ x. first_if x.buy) ∷ (λ x. better x.buy (pos x.price)) ∷ []) };

    ghost irreflexive = { keys_irreflexive (λ x. x.number) ((λ x. first_if x.buy) ∷ (λ x. better x.buy (pos x.price)) ∷ []) };

    ghost transitive = { keys_transitive (λ x. x.number) ((λ x. first_if x.buy) ∷ (λ x. better x.buy (pos x.price)) ∷ []) };

    fn is_ahead(&self, other: &Interest) -> bool {
        if self.buy != other.buy {
            return self.buy;
        }
        if self.price != other.price {
            return if self.buy {
                self.price > other.price
            } else {
                self.price < other.price
            };
        }
        self.number < other.number
    }

    fn number(&self) -> u32 {
        self.number
    }
}

fn bid(price: u32, number: u32) -> Interest {
    Interest {
        buy: true,
        price,
        number,
    }
}

fn offer(price: u32, number: u32) -> Interest {
    Interest {
        buy: false,
        price,
        number,
    }
}

#[test]
fn inserts_in_rank(rt: HostRuntime) {
    let mut slots = [bid(9, 9); 3];
    let mut list = RankedList::open(&mut slots);
    assert!(rt; list.insert(offer(5, 1)) && list.insert(bid(3, 2)) && list.insert(bid(4, 3)));
    assert!(rt; !list.insert(bid(8, 4)));
    assert_eq!(rt; list.find(3), Some(0));
    assert_eq!(rt; list.find(1), Some(2));
}

#[test]
fn removes_and_replaces(rt: HostRuntime) {
    let mut slots = [bid(9, 9); 2];
    let mut list = RankedList::open(&mut slots);
    assert!(rt; list.insert(bid(4, 1)) && list.insert(bid(5, 2)));
    assert!(rt; list.replace(0, bid(5, 3)).is_some() && list.remove(1).is_some());
    assert!(rt; list.remove(1).is_none());
    assert_eq!(rt; list.find(3), Some(0));
}
