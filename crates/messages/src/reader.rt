// The reader of messages.
ghost use Rattle.std.specs.Prelude.{◌≡◌, ℕ, ◌+◌, ◌-◌, ◌*◌, ◌/◌, ◌%◌, ◌^◌, ◌<◌, ◌≤◌, length};
ghost use Rattle.messages.specs.Laws.{Accepted, Said, WrittenBack};
ghost use Rattle.messages.specs.Layout.{order_layout, leg_layout, define_layout, layout};
ghost use Rattle.messages.specs.Limits.{limit_in};
ghost use Rattle.messages.specs.Bits.{message_bits};
ghost use Rattle.messages.specs.Passing.{Passed};
ghost use Rattle.messages.specs.Reading.{order_fields, leg_at, leg_count, defined, said, read_of};

use crate::bits::BitReader;
use crate::codes::Kind;
use crate::fields::{CANCEL, EVALUATE, OrderFields, PLACE, most};
use contents::{
    DefineFields, Edition, LegFields, LegSide, Message, OrderSide, PlaceFields, ReaderFault,
    Received,
};
use refusals::Reason;

// The limit that 32 bits say.
fn limit_of(edition: Edition, raw: u64) -> i64
    requires { raw < 2 ^ 32 }
    ensures { result ≡ limit_in edition raw }
{
    if edition == Edition::Signed {
        (raw as u32).cast_signed() as i64
    } else {
        raw as i64
    }
}

// Each kind's fields begin at bit 8: three contracts say so, since a type for what is behind the head would be longer.
impl BitReader<'_> {
    // The fields that placing, cancelling and evaluating share; one that is above its greatest offends.
    fn order_fields(&mut self, greatest: &OrderFields) -> OrderFields
        requires begins { self.old.at ≡ 8 }
        ensures value { result ≡ order_fields self.old.bytes.now }
        ensures passed { Passed self.old self.new 104 (order_layout greatest.now) }
        ensures narrow { result.limit < 2 ^ 32 }
    {
        let fields = OrderFields {
            strategy: self.field(8, greatest.strategy),
            side: self.field(1, greatest.side),
            market: self.field(1, greatest.market),
            time_in_force: self.field(2, greatest.time_in_force),
            limit: self.field(32, greatest.limit),
            quantity: self.field(16, greatest.quantity),
            number: self.field(32, greatest.number),
        };
        self.unused_bits(12);
        fields
    }

    // The next leg, which answers its own first bit; one beyond the count is 0.
    fn leg(&mut self, within: bool) -> LegFields
        requires begins { self.old.at + 15 ≤ message_bits }
        ensures value { result ≡ leg_at self.old.bytes.now self.old.at }
        ensures passed { Passed self.old self.new 15 (leg_layout within self.old.at) }
    {
        let place = self.at as u32;
        // a side is one bit, so each value says one: no conversion that could fail
        LegFields {
            series: self.part(10, most(within, 10), place),
            side: match self.part(1, most(within, 1), place) {
                0 => LegSide::Bought,
                _ => LegSide::Sold,
            },
            ratio: self.part(4, most(within, 4), place),
        }
    }

    // A definition: its leg count and four legs.
    fn definition(&mut self) -> DefineFields
        requires begins { self.old.at ≡ 8 }
        ensures value { result ≡ defined self.old.bytes.now }
        ensures passed { Passed self.old self.new 104 (define_layout (leg_count self.old.bytes.now)) }
    {
        let count = self.field(4, 15);
        // four calls: `array::from_fn` does not say where its last call leaves the reader
        let legs = [
            self.leg(0 < count),
            self.leg(1 < count),
            self.leg(2 < count),
            self.leg(3 < count),
        ];
        self.unused_bits(40);
        DefineFields { count, legs }
    }

    // The message of a kind, read from behind the head.
    fn message(&mut self, kind: Kind, edition: Edition) -> Message
        requires begins { self.old.at ≡ 8 }
        ensures value { result ≡ said kind edition self.old.bytes.now }
        ensures passed { Passed self.old self.new 104 (layout kind (leg_count self.old.bytes.now)) }
    {
        match kind {
            Kind::Place => {
                let fields = self.order_fields(&PLACE);
                Message::Place(PlaceFields {
                    strategy: fields.strategy,
                    side: match fields.side {
                        0 => OrderSide::Buy,
                        _ => OrderSide::Sell,
                    },
                    market: fields.market == 1,
                    time_in_force: fields.time_in_force,
                    limit: limit_of(edition, fields.limit),
                    quantity: fields.quantity,
                })
            }
            Kind::Cancel => Message::Cancel {
                number: self.order_fields(&CANCEL).number,
            },
            Kind::Evaluate => Message::Evaluate {
                strategy: self.order_fields(&EVALUATE).strategy,
            },
            Kind::Define => Message::Define(self.definition()),
        }
    }
}

// The message that bytes say, or why they say none: the length is tested first, then the edition, the kind and the fields.
fn parse(bytes: &[u8]) -> Result<Received, ReaderFault>
    ensures { result ≡ read_of bytes.now }
{
    if bytes.len() != 14 {
        return Err(Reason::Length.into());
    }
    let mut reader = BitReader {
        bytes,
        at: 0,
        offence: None,
    };
    let edition = Edition::try_from(reader.number(4))?;
    let kind = Kind::try_from(reader.number(4))?;
    let message = reader.message(kind, edition);
    match reader.offence {
        Some(bit) => Err(ReaderFault {
            reason: Reason::Field,
            bit,
        }),
        None => Ok(Received { edition, message }),
    }
}

// The message that bytes say, with its edition, or why they say none. They are accepted exactly if they are lawful, each field is
// the number that its bits write, and a message of edition 2 is written back to the same bytes.
pub fn read(bytes: &[u8]) -> Result<Received, ReaderFault>
    ensures answer { result ≡ read_of bytes.now }
    ensures accepted { Accepted bytes.now result }
    ensures said { Said bytes.now result }
    ensures back { WrittenBack bytes.now result }
{
    parse(bytes)
}
