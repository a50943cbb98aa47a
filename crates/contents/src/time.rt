// How long orders stand, and the codes for it.
ghost use Rattle.std.specs.Prelude.{◌≡◌};
ghost use Rattle.std.specs.Option.{ok_or};
ghost use Rattle.refusals.specs.declared.reason.Reason.TheVariants.{Field};
ghost use Rattle.contents.specs.Times.{time_code, time_coded};

use refusals::Reason;

// How long an order stands.
#[derive(Clone, Copy, PartialEq, Eq, Debug)]
pub enum TimeInForce {
    Day = 0,
    ImmediateOrCancel = 1,
}

// The code of a time in force in a message.
impl From<TimeInForce> for u64 {
    ghost from_gives = { λ time code. code ≡ time_code time };

    fn from(time: TimeInForce) -> u64 {
        time as u64
    }
}

// The time in force that has a code. One impl for each enum with codes: they share a shape, and no code.
impl TryFrom<u64> for TimeInForce {
    type Error = Reason;

    ghost try_from_gives = { λ code r. r ≡ ok_or (time_coded code) Field };

    fn try_from(code: u64) -> Result<TimeInForce, Reason> {
        match code {
            0 => Ok(TimeInForce::Day),
            1 => Ok(TimeInForce::ImmediateOrCancel),
            _ => Err(Reason::Field),
        }
    }
}
