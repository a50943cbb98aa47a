// What the words of a line ask for.
ghost use Rattle.std.specs.Prelude.{◌≡◌};
ghost use Rattle.std.specs.Option.{option_copied};
ghost use Rattle.text.specs.Words.{lent};
ghost use Rattle.replay.specs.Commands.{small_in, side_in, class_in, kind_in, entry_words, only, best_words, take_words, layer_call_in, command_in};

use crate::answer::Complaint;
use crate::command::{BookCall, Command, Entry, Kind, LayerCall};
use numbers::number;
use simple::{Lot, Side};

// The number that a word names, if it is within 32 bits.
fn small_number(word: &[u8]) -> Option<u32>
    ensures { result ≡ small_in word.now }
{
    u32::try_from(number(word)?).ok()
}

// The side that a word names. A `match` for each enum: which word names which value is all that it says.
fn side_named(word: &[u8]) -> Option<Side>
    ensures { result ≡ side_in word.now }
{
    match word {
        b"bid" => Some(Side::Bid),
        b"offer" => Some(Side::Offer),
        _ => None,
    }
}

// Whether a word names a Priority Customer or a maker.
fn class_named(word: &[u8]) -> Option<bool>
    ensures { result ≡ class_in word.now }
{
    match word {
        b"customer" => Some(true),
        b"maker" => Some(false),
        _ => None,
    }
}

// The kind of book that a word names.
fn kind_named(word: &[u8]) -> Option<Kind>
    ensures { result ≡ kind_in word.now }
{
    match word {
        b"board" => Some(Kind::Board),
        b"depth" => Some(Kind::Depth),
        _ => None,
    }
}

// What the words behind `quote` and `post` say.
fn entry_words(words: &[&[u8]]) -> Option<Entry>
    ensures { result ≡ entry_words (lent words.now) }
{
    let [series, side, class, price, size] = words else {
        return None;
    };
    let series = small_number(series)?;
    let side = side_named(side)?;
    let customer = class_named(class)?;
    let price = small_number(price)?;
    let size = small_number(size)?;
    let lot = Lot {
        price,
        size,
        customer,
    };
    Some(Entry { series, side, lot })
}

// The word behind a command that takes one.
fn only<'a>(words: &[&'a [u8]]) -> Option<&'a [u8]>
    ensures { option_copied result ≡ only (lent words.now) }
{
    match words {
        [word] => Some(word),
        _ => None,
    }
}

fn best_words(words: &[&[u8]]) -> Option<LayerCall>
    ensures { result ≡ best_words (lent words.now) }
{
    let [series, side] = words else {
        return None;
    };
    let series = small_number(series)?;
    let side = side_named(side)?;
    Some(LayerCall::Best { series, side })
}

fn take_words(words: &[&[u8]]) -> Option<LayerCall>
    ensures { result ≡ take_words (lent words.now) }
{
    let [series, side, quantity] = words else {
        return None;
    };
    let series = small_number(series)?;
    let side = side_named(side)?;
    let quantity = small_number(quantity)?;
    Some(LayerCall::Take {
        series,
        side,
        quantity,
    })
}

// The command of a name, or what is wrong with it or with the words behind it.
fn command_named(name: &[u8], words: &[&[u8]]) -> Result<Command, Complaint>
    ensures { result ≡ layer_call_in name.now (lent words.now) }
{
    let command = match name {
        b"best" => best_words(words).map(Command::ToLayer),
        b"take" => take_words(words).map(Command::ToLayer),
        b"hold" => only(words)
            .and_then(small_number)
            .map(|series| Command::ToLayer(LayerCall::Hold(series))),
        b"release" => only(words)
            .and_then(small_number)
            .map(|series| Command::ToLayer(LayerCall::Release(series))),
        b"book" => only(words).and_then(kind_named).map(Command::Open),
        b"quote" => entry_words(words).map(|entry| Command::ToBook(BookCall::Quote(entry))),
        b"post" => entry_words(words).map(|entry| Command::ToBook(BookCall::Post(entry))),
        b"withdraw" => only(words)
            .and_then(small_number)
            .map(|lot| Command::ToBook(BookCall::Withdraw(lot))),
        _ => return Err(Complaint::Unknown),
    };
    command.ok_or(Complaint::Misworded)
}

// The command that a line says, or what is wrong with the line.
pub(crate) fn command_in(words: &[&[u8]]) -> Result<Command, Complaint>
    ensures { result ≡ command_in (lent words.now) }
{
    match words {
        [] => Err(Complaint::Unknown),
        [name, words @ ..] => command_named(name, words),
    }
}
