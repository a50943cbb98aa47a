// The writer of messages, in edition 2.
ghost use Rattle.std.specs.Prelude.{◌≡◌, ◌+◌, ◌-◌, ◌*◌, ◌^◌, ◌<◌, ◌≤◌, [], ◌∷◌, ◌++◌, length, IfSome, OnOk};
ghost use Rattle.std.specs.Bool.{then_some};
ghost use Rattle.contents.specs.declared.message.Message.TheVariants.{Define};
ghost use Rattle.messages.specs.Bits.{message_bits};
ghost use Rattle.contents.specs.declared.edition.Edition.TheVariants.{Signed};
ghost use Rattle.contents.specs.Editions.{edition_code};
ghost use Rattle.messages.specs.Codes.{kind_code};
ghost use Rattle.messages.specs.Laws.{ReadBack};
ghost use Rattle.messages.specs.Layout.{Capable, head_layout, order_layout, leg_layout};
ghost use Rattle.messages.specs.Writing.{order_values, leg_values, all_within, fits, FourLegged, image, image_of, write_answer, written};

use crate::codes::Kind;
use crate::fields::{CANCEL, EVALUATE, NONE, OrderFields, PLACE, most};
use contents::{Edition, LegFields, Message, WriterFault};

// A value, shifted to the place of its field.
fn placed(value: u64, place: usize, width: usize) -> u128
    requires within { place + width ≤ 112 }
    requires narrow { width ≤ 64 }
    requires fits { value < 2 ^ width }
    ensures image { result ≡ value * 2 ^ (112 - (place + width)) }
    ensures bound { result < 2 ^ 112 }
{
    (value as u128) << (112 - place - width)
}

// The edition and the kind, which every message begins with.
fn head_image(kind: Kind) -> u128
    ensures image { result ≡ image head_layout (edition_code Signed ∷ kind_code kind ∷ []) }
    ensures bound { result < 2 ^ 113 }
{
    placed(Edition::Signed.into(), 0, 4) + placed(kind as u64, 4, 4)
}

// The bits of a message of the fields that placing, cancelling and evaluating share, if each may have its value.
fn order_image(kind: Kind, fields: &OrderFields, greatest: &OrderFields) -> Option<u128>
    requires { Capable (order_layout greatest.now) }
    ensures { result ≡ then_some (all_within (order_layout greatest.now) (order_values fields.now)) (image (head_layout ++ order_layout greatest.now) (edition_code Signed ∷ kind_code kind ∷ order_values fields.now)) }
{
    if !fields.within(greatest) {
        return None;
    }
    Some(
        head_image(kind)
            + placed(fields.strategy, 8, 8)
            + placed(fields.side, 16, 1)
            + placed(fields.market, 17, 1)
            + placed(fields.time_in_force, 18, 2)
            + placed(fields.limit, 20, 32)
            + placed(fields.quantity, 52, 16)
            + placed(fields.number, 68, 32),
    )
}

// The bits of a leg whose first bit is `place`, if each part may have its value; beyond the count that is 0.
fn leg_image(leg: &LegFields, place: usize, counted: bool) -> Option<u128>
    requires { place + 15 ≤ message_bits }
    ensures image { result ≡ then_some (all_within (leg_layout counted place) (leg_values leg.now)) (image (leg_layout counted place) (leg_values leg.now)) }
    ensures bound { IfSome result (λ image. image < 2 ^ 114) }
{
    let side = leg.side.into();
    if leg.series > most(counted, 10) || side > most(counted, 1) || leg.ratio > most(counted, 4) {
        return None;
    }
    Some(
        placed(leg.series, place, 10)
            + placed(side, place + 10, 1)
            + placed(leg.ratio, place + 11, 4),
    )
}

// The bits of a definition, if its leg count and each leg fit.
fn define_image(count: u64, legs: &[LegFields; 4]) -> Option<u128>
    ensures image { result ≡ then_some (fits (Define (record { count = count; legs = legs.now }))) (image_of (Define (record { count = count; legs = legs.now }))) }
    ensures legs { length legs.now ≡ 4 }
{
    if count > 15 {
        return None;
    }
    let mut image = head_image(Kind::Define) + placed(count, 8, 4);
    for (i, leg) in legs.iter().enumerate() {
        image += leg_image(leg, 12 + 15 * i, (i as u64) < count)?;
    }
    Some(image)
}

// The 112 bits of a message, if it fits.
fn image(message: &Message) -> Option<u128>
    ensures image { result ≡ then_some (fits message.now) (image_of message.now) }
    ensures legs { FourLegged message.now }
{
    match message {
        Message::Place(order) => order_image(Kind::Place, &OrderFields::placing(order)?, &PLACE),
        Message::Cancel { number } => {
            let fields = OrderFields {
                number: *number,
                ..NONE
            };
            order_image(Kind::Cancel, &fields, &CANCEL)
        }
        Message::Evaluate { strategy } => {
            let fields = OrderFields {
                strategy: *strategy,
                ..NONE
            };
            order_image(Kind::Evaluate, &fields, &EVALUATE)
        }
        Message::Define(row) => define_image(row.count, &row.legs),
    }
}

// Writes a message into 14 bytes of the host's, in edition 2; refused, it writes none. What was written is read back.
pub fn write(message: &Message, room: &mut [u8]) -> Result<(), WriterFault>
    ensures answer { result ≡ write_answer message.now room.old }
    ensures room { room.new ≡ written message.now room.old }
    ensures back { OnOk result (ReadBack message.now room.new) }
{
    if room.len() != 14 {
        return Err(WriterFault);
    }
    let image = image(message).ok_or(WriterFault)?;
    room.copy_from_slice(&image.to_be_bytes()[2..]);
    Ok(())
}
