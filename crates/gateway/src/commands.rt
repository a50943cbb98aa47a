// What the words of a line ask for.
ghost use Rattle.std.specs.Prelude.{◌≡◌};
ghost use Rattle.gateway.specs.Commands.{side_in, limit_in, time_in, leg_of, signed_leg, leg_in, place_words, number_words, leg_word, define_words, kind_words, message_in};
ghost use Rattle.numbers.specs.Numbers.{number_in};
ghost use Rattle.text.specs.Words.{lent};

use contents::{DefineFields, LegFields, LegSide, Message, OrderSide, PlaceFields, TimeInForce};
use numbers::{number, signed_number};
use text::words::split_once;

// The limit of an order, which a market order has not. No Option: a word that names neither would be a None around it.
#[derive(Clone, Copy)]
pub(crate) enum Limit {
    Market,
    At(i64),
}

// The side that a word names. A `match` for each enum: which word names which value is all that it says.
fn side_named(word: &[u8]) -> Option<OrderSide>
    ensures { result ≡ side_in word.now }
{
    match word {
        b"buy" => Some(OrderSide::Buy),
        b"sell" => Some(OrderSide::Sell),
        _ => None,
    }
}

// The limit that a word names.
fn limit_named(word: &[u8]) -> Option<Limit>
    ensures { result ≡ limit_in word.now }
{
    match word {
        b"market" => Some(Limit::Market),
        _ => Some(Limit::At(signed_number(word)?)),
    }
}

// The time in force that a word names.
fn time_named(word: &[u8]) -> Option<TimeInForce>
    ensures { result ≡ time_in word.now }
{
    match word {
        b"day" => Some(TimeInForce::Day),
        b"ioc" => Some(TimeInForce::ImmediateOrCancel),
        _ => None,
    }
}

// A leg of which two words name the series and the ratio.
fn leg_of(side: LegSide, series: &[u8], ratio: &[u8]) -> Option<LegFields>
    ensures { result ≡ leg_of side (number_in series.now) (number_in ratio.now) }
{
    let series = number(series)?;
    let ratio = number(ratio)?;
    Some(LegFields {
        series,
        side,
        ratio,
    })
}

// The leg of a series whose side and ratio a word names.
fn signed_leg(series: &[u8], signed: &[u8]) -> Option<LegFields>
    ensures { result ≡ signed_leg series.now signed.now }
{
    match signed {
        [b'+', ratio @ ..] => leg_of(LegSide::Bought, series, ratio),
        [b'-', ratio @ ..] => leg_of(LegSide::Sold, series, ratio),
        _ => None,
    }
}

// The leg that a word names.
fn leg_named(word: &[u8]) -> Option<LegFields>
    ensures { result ≡ leg_in word.now }
{
    let (series, signed) = split_once(word, b':')?;
    signed_leg(series, signed)
}

// The message that the words behind `place` say.
fn place_words(words: &[&[u8]]) -> Option<Message>
    ensures { result ≡ place_words (lent words.now) }
{
    let [strategy, side, limit, time, quantity] = words else {
        return None;
    };
    let strategy = number(strategy)?;
    let side = side_named(side)?;
    let (market, limit) = match limit_named(limit)? {
        Limit::Market => (true, 0),
        Limit::At(limit) => (false, limit),
    };
    let time_in_force = time_named(time)?.into();
    let quantity = number(quantity)?;
    Some(Message::Place(PlaceFields {
        strategy,
        side,
        market,
        time_in_force,
        limit,
        quantity,
    }))
}

// The one number behind `cancel` and `evaluate`.
fn number_words(words: &[&[u8]]) -> Option<u64>
    ensures { result ≡ number_words (lent words.now) }
{
    let [word] = words else {
        return None;
    };
    number(word)
}

// The leg of a place, which is 0 where no word names one.
fn leg_word(words: &[&[u8]], i: usize) -> Option<LegFields>
    ensures { result ≡ leg_word (lent words.now) i }
{
    match words.get(i) {
        Some(word) => leg_named(word),
        None => Some(LegFields {
            series: 0,
            side: LegSide::Bought,
            ratio: 0,
        }),
    }
}

// The message that the words behind `define` say.
fn define_words(words: &[&[u8]]) -> Option<Message>
    ensures { result ≡ define_words (lent words.now) }
{
    if words.len() > 4 {
        return None;
    }
    // four calls: no plainer with `array::try_from_fn`, which takes a Result, where a leg is an Option
    let legs = [
        leg_word(words, 0)?,
        leg_word(words, 1)?,
        leg_word(words, 2)?,
        leg_word(words, 3)?,
    ];
    Some(Message::Define(DefineFields {
        count: words.len() as u64,
        legs,
    }))
}

// The message of a kind that a word names.
fn kind_words(kind: &[u8], words: &[&[u8]]) -> Option<Message>
    ensures { result ≡ kind_words kind.now (lent words.now) }
{
    match kind {
        b"place" => place_words(words),
        b"cancel" => number_words(words).map(|number| Message::Cancel { number }),
        b"evaluate" => number_words(words).map(|strategy| Message::Evaluate { strategy }),
        b"define" => define_words(words),
        _ => None,
    }
}

// The message that a line asks to write.
pub(crate) fn message_in(words: &[&[u8]]) -> Option<Message>
    ensures { result ≡ message_in (lent words.now) }
{
    let [name, kind, words @ ..] = words else {
        return None;
    };
    match *name {
        b"write" => kind_words(kind, words),
        _ => None,
    }
}
