// The text of what was read, written or refused.
ghost use Rattle.std.specs.Prelude.{◌≡◌, IfOk, Some, string_bytes};
ghost use Rattle.std.specs.Fmt.{signed_decimal};
ghost use Rattle.numbers.specs.Numbers.{signed_in};
ghost use Rattle.contents.specs.Editions.{edition_code};
ghost use Rattle.gateway.specs.Texts.{time_text, limit_text, message_text, is_beyond, reread, warning_text};

use contents::{Message, Received, TimeInForce};
use std::alloc::{AllocError, Global};

fn time_text(code: u64) -> &'static str
    ensures { result.now ≡ time_text code }
{
    match TimeInForce::try_from(code) {
        Ok(TimeInForce::Day) => "day",
        _ => "ioc",
    }
}

// The flag and the number are two fields of a message, and a market order may have a number that is not 0. Read again the number
// is the same.
fn limit_text(heap: Global, market: bool, limit: i64) -> Result<String, AllocError>
    ensures text { IfOk result (λ t. string_bytes t ≡ limit_text market limit) }
    ensures read_again { signed_in (signed_decimal limit) ≡ Some limit }
{
    match (market, limit) {
        (true, 0) => "market".to_string(heap),
        (true, _) => format!(in heap; "market limit {limit}"),
        (false, _) => format!(in heap; "limit {limit}"),
    }
}

// What a message that was read says under its edition. A definition shows all four legs, counted or not.
pub(crate) fn message_text(heap: Global, received: &Received) -> Result<String, AllocError>
    ensures { IfOk result (λ t. string_bytes t ≡ message_text (edition_code received.now.edition) received.now.message) }
{
    let edition = u64::from(received.edition);
    match received.message {
        Message::Place(order) => {
            let strategy = order.strategy;
            let side = order.side;
            let limit = limit_text(heap, order.market, order.limit)?;
            let time = time_text(order.time_in_force);
            let quantity = order.quantity;
            format!(in heap;
                "place edition {edition} strategy {strategy} {side} {limit} {time} quantity {quantity}"
            )
        }
        Message::Cancel { number } => format!(in heap; "cancel edition {edition} number {number}"),
        Message::Evaluate { strategy } => {
            format!(in heap; "evaluate edition {edition} strategy {strategy}")
        }
        Message::Define(row) => {
            let count = row.count;
            let [first, second, third, fourth] = row.legs;
            format!(in heap;
                "define edition {edition} count {count} legs {first} {second} {third} {fourth}"
            )
        }
    }
}

// Whether a limit is beyond what the engine takes.
pub(crate) fn is_beyond(limit: i64) -> bool
    ensures { result ≡ is_beyond limit }
{
    limit > 40_000_000 || limit < -40_000_000
}

// What the 32 bits of a limit say in two's complement.
fn reread(limit: i64) -> i64
    ensures { result ≡ reread limit }
{
    if limit < 1 << 31 {
        limit
    } else {
        limit - (1 << 32)
    }
}

// The warning of a limit that is beyond what the engine takes. Read again both numbers are the same.
pub(crate) fn warning_text(heap: Global, limit: i64) -> Result<String, AllocError>
    ensures text { IfOk result (λ t. string_bytes t ≡ warning_text limit) }
    ensures read_again { signed_in (signed_decimal limit) ≡ Some limit }
    ensures reread_again { signed_in (signed_decimal (reread limit)) ≡ Some (reread limit) }
{
    let again = reread(limit);
    format!(in heap; "warning limit {limit} is beyond 40000000, in edition 2 it reads {again}")
}
