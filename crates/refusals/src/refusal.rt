// What a refused call answers.
ghost use Rattle.std.specs.Prelude.{◌≡◌, Some};
ghost use Rattle.refusals.specs.Reasons.{number_of};
ghost use Rattle.refusals.specs.Refusals.{refused_at, refusal_text};

use crate::reason::Reason;
use crate::station::Station;
use std::error::Error;
use std::fmt;

// A refusal: its station, its reason and, for a message's field, the field's bit place (else 0).
// The 0 is no Option: it is what every other refusal answers as its bit.
#[derive(Clone, Copy, PartialEq, Eq, Debug)]
pub struct Refusal {
    pub station: Station,
    pub reason: Reason,
    pub bit: u32,
}

impl Refusal {
    // A refusal that names no bit.
    pub fn at(station: Station, reason: Reason) -> Refusal
        ensures { result ≡ refused_at station reason }
    {
        Refusal {
            station,
            reason,
            bit: 0,
        }
    }

    // The number in the refusal table.
    pub fn number(&self) -> u32
        ensures { result ≡ number_of self.now.reason }
    {
        self.reason.number()
    }
}

// What programs print of a refusal: its station, its number and, for a field, the bit place.
impl fmt::Display for Refusal {
    ghost output = { λ r. Some (refusal_text r) };

    fn fmt<W: fmt::Write>(&self, f: &mut fmt::Formatter<W>) -> fmt::Result {
        let station = self.station;
        let number = self.number();
        let bit = self.bit;
        if self.reason == Reason::Field {
            write!(f, "refused {station} {number} bit {bit}")
        } else {
            write!(f, "refused {station} {number}")
        }
    }
}

impl Error for Refusal {}
