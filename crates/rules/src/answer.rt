// What the calls answer.
ghost use Rattle.std.specs.Prelude.{◌≡◌};
ghost use Rattle.rules.specs.declared.answer.IntakeFault.TheVariants.{Unread, Refused};
ghost use Rattle.rules.specs.Events.{intake_refusal};

use contents::ReaderFault;
use refusals::Refusal;

// Whether a strategy has come to rest, or a step is still possible.
#[derive(Clone, Copy, PartialEq, Eq, Debug)]
pub enum Outcome {
    AtRest,
    More,
}

// An order that was accepted: its number, the records written, and what was executed and cancelled of it.
#[derive(Clone, Copy, PartialEq, Eq, Debug)]
pub struct Placed {
    pub number: u32,
    pub records: usize,
    pub executed: u32,
    pub cancelled: u32,
    pub outcome: Outcome,
}

// A strategy that was stepped: the records written.
#[derive(Clone, Copy, PartialEq, Eq, Debug)]
pub struct Evaluated {
    pub records: usize,
    pub outcome: Outcome,
}

// What the call answered that a message asked for.
#[derive(Clone, Copy, PartialEq, Eq, Debug)]
pub enum Intake {
    Defined(u32),
    Placed(Placed),
    Evaluated(Evaluated),
    Cancelled(u32),
}

// Why a message was not carried out: it cannot be read, or its call was refused.
#[derive(Clone, Copy, PartialEq, Eq, Debug)]
pub enum IntakeFault {
    Unread(ReaderFault),
    Refused(Refusal),
}

impl From<ReaderFault> for IntakeFault {
    ghost from_gives = { λ x r. r ≡ Unread x };

    fn from(fault: ReaderFault) -> IntakeFault {
        IntakeFault::Unread(fault)
    }
}

impl From<Refusal> for IntakeFault {
    ghost from_gives = { λ x r. r ≡ Refused x };

    fn from(why: Refusal) -> IntakeFault {
        IntakeFault::Refused(why)
    }
}

// The whole refusal, at the station of the reader or of the call.
impl From<IntakeFault> for Refusal {
    ghost from_gives = { λ fault refusal. refusal ≡ intake_refusal fault };

    fn from(fault: IntakeFault) -> Refusal {
        match fault {
            IntakeFault::Unread(fault) => fault.into(),
            IntakeFault::Refused(why) => why,
        }
    }
}
