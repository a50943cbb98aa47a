// What a command is answered with.
use refusals::Refusal;
use simple::Best;

// What is wrong with a line.
#[derive(Clone, Copy)]
pub(crate) enum Complaint {
    // there is no command of that name
    Unknown,
    // the words behind the name are not those that the command takes
    Misworded,
    // no book was opened yet
    Unopened,
    // the book of the session has no such call
    Unfit,
}

#[derive(Clone, Copy)]
pub(crate) enum Answer {
    Done,
    // the number of the lot that was posted
    Lot(u32),
    Best(Option<Best>),
    Refused(Refusal),
    Wrong(Complaint),
}
