// Replays trading sessions that are written as text, and prints every answer.

#![tactic(auto)]

mod answer;
mod board;
mod command;
mod commands;
mod depth_book;
mod input;
mod layer;
mod said;
mod sessions;
mod texts;

use crate::command::{Command, Kind};
use crate::depth_book::blank_lots;
use crate::input::Input;
use crate::sessions::{SessionBook, answer_to, answer_unopened};
use anyhow::anyhow;
use boards::QuoteBoard;
use depth::DepthBook;
use holds::HoldLayer;

// The lines before the first session; answers the kind of its book. Beside `session`, whose answers need a layer that each line
// moves: one loop for both would be longer.
fn unopened(rt: &HostRuntime, input: &mut Input) -> anyhow::Result<Option<Kind>> {
    // a count bounds the loop: a `for` over the input would hold it, and an answer that is printed may mark it
    for _ in 0..u64::MAX {
        let Some(said) = input.next(rt.alloc())? else {
            break;
        };
        input.print(rt, &said, answer_unopened(said.command))?;
        if let Ok(Command::Open(kind)) = said.command {
            return Ok(Some(kind));
        }
    }
    Ok(None)
}

// A session over an empty book, with no series on hold; answers the kind of the next session's book.
fn session<B: SessionBook + Drop>(
    rt: &HostRuntime,
    input: &mut Input,
    book: B,
) -> anyhow::Result<Option<Kind>> {
    let mut layer = HoldLayer::new(book);
    // a count bounds the loop: a `for` over the input would hold it, and an answer that is printed may mark it
    for _ in 0..u64::MAX {
        let Some(said) = input.next(rt.alloc())? else {
            break;
        };
        let (next, answer) = answer_to(layer, said.command);
        layer = next;
        input.print(rt, &said, answer)?;
        if let Ok(Command::Open(kind)) = said.command {
            return Ok(Some(kind));
        }
    }
    Ok(None)
}

// A session over a depth book in memory of its own.
fn depth_session(rt: &HostRuntime, input: &mut Input) -> anyhow::Result<Option<Kind>> {
    let mut memory = blank_lots(rt.alloc())?;
    let mut book = DepthBook::open(memory.as_mut_slice());
    session(rt, input, &mut book)
}

fn main(rt: HostRuntime) -> anyhow::Result<()> {
    let mut input = Input::new(&rt)?;
    let mut next = unopened(&rt, &mut input)?;
    // a count bounds the loop, since a `while let` needs a measure, and no clause counts the lines that a session reads
    for _ in 0..u64::MAX {
        let Some(kind) = next else {
            break;
        };
        next = match kind {
            Kind::Board => session(&rt, &mut input, QuoteBoard::new())?,
            Kind::Depth => depth_session(&rt, &mut input)?,
        };
    }
    if input.has_errors {
        return Err(anyhow!("some lines are no commands"));
    }
    Ok(())
}
