// A strategy that is defined.
use strategies::Strategy;

// A strategy, and the number that it was defined under.
// Its methods take the orders and the book as two parameters: the engine owns the one, its caller lends the other.
#[derive(Clone, Copy, PartialEq, Eq, Debug)]
pub struct Defined {
    pub number: u32,
    pub strategy: Strategy,
}
