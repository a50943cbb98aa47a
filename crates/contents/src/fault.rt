// Why bytes are no message, and why a message cannot be written.
ghost use Rattle.std.specs.Prelude.{◌≡◌};
ghost use Rattle.refusals.specs.Reasons.{number_of};
ghost use Rattle.refusals.specs.declared.reason.Reason.TheVariants.{Unwritable};
ghost use Rattle.contents.specs.Faults.{reader_fault, reader_refusal, writer_refusal};

use refusals::{Reason, Refusal, Station};

// Why bytes are no message: the reason and, where it is a field's, the bit place (else 0, as in a refusal).
#[derive(Clone, Copy, PartialEq, Eq, Debug)]
pub struct ReaderFault {
    pub reason: Reason,
    pub bit: u32,
}

// A message was not written; there is one reason for it.
#[derive(Clone, Copy, PartialEq, Eq, Debug)]
pub struct WriterFault;

impl ReaderFault {
    // The number in the refusal table.
    pub fn number(&self) -> u32
        ensures { result ≡ number_of self.now.reason }
    {
        self.reason.number()
    }
}

impl WriterFault {
    // The number in the refusal table.
    pub fn number(&self) -> u32
        ensures { result ≡ number_of Unwritable }
    {
        Reason::Unwritable.number()
    }
}

// A reason that names no bit.
impl From<Reason> for ReaderFault {
    ghost from_gives = { λ why fault. fault ≡ reader_fault why 0 };

    fn from(reason: Reason) -> ReaderFault {
        ReaderFault { reason, bit: 0 }
    }
}

// The whole refusal, at the station of the reader, for one of the reader's four reasons.
impl From<ReaderFault> for Refusal {
    ghost from_gives = { λ fault refusal. refusal ≡ reader_refusal fault };

    fn from(fault: ReaderFault) -> Refusal {
        Refusal {
            station: Station::Reader,
            reason: match fault.reason {
                Reason::Length | Reason::Edition | Reason::Kind => fault.reason,
                _ => Reason::Field,
            },
            bit: fault.bit,
        }
    }
}

// The whole refusal, at the station of the writer.
impl From<WriterFault> for Refusal {
    ghost from_gives = { λ _ refusal. refusal ≡ writer_refusal };

    fn from(_fault: WriterFault) -> Refusal {
        Refusal::at(Station::Writer, Reason::Unwritable)
    }
}
