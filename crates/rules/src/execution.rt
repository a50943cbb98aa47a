// Executions.

// What traded: the numbers of the buy and of the sell, 0 for the simple book, and the price of each leg, 0 where there is none.
// Zeros and no Option: a record is plain numbers, written into memory that the host lends and reads.
#[derive(Clone, Copy, PartialEq, Eq, Debug)]
pub struct Execution {
    pub strategy: u32,
    pub price: i64,
    pub quantity: u32,
    pub buy: u32,
    pub sell: u32,
    pub legs: [u32; 4],
}
