// What a line of a session can ask for.
use simple::{Lot, Side};

// The kinds of books.
#[derive(Clone, Copy)]
pub(crate) enum Kind {
    Board,
    Depth,
}

// What is quoted or posted: a lot, and the side of a series on which it is to stand.
#[derive(Clone, Copy)]
pub(crate) struct Entry {
    pub(crate) series: u32,
    pub(crate) side: Side,
    pub(crate) lot: Lot,
}

// A call of the book itself, which not every kind of book has.
#[derive(Clone, Copy)]
pub(crate) enum BookCall {
    Quote(Entry),
    Post(Entry),
    // by the lot's number
    Withdraw(u32),
}

// A call through the hold layer, which every book has.
#[derive(Clone, Copy)]
pub(crate) enum LayerCall {
    Best {
        series: u32,
        side: Side,
    },
    Take {
        series: u32,
        side: Side,
        quantity: u32,
    },
    Hold(u32),
    Release(u32),
}

#[derive(Clone, Copy)]
pub(crate) enum Command {
    // a new session over a book of that kind
    Open(Kind),
    ToBook(BookCall),
    ToLayer(LayerCall),
}
