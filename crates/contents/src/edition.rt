// The editions of the message format.
ghost use Rattle.std.specs.Prelude.{◌≡◌};
ghost use Rattle.std.specs.Option.{ok_or};
ghost use Rattle.refusals.specs.declared.reason.Reason.TheVariants as reason;
ghost use Rattle.contents.specs.Editions.{edition_code, edition_coded};

use refusals::Reason;

// How a message writes its limit: without a sign, or in two's complement, as all that is written is.
#[derive(Clone, Copy, PartialEq, Eq, Debug)]
pub enum Edition {
    Unsigned = 1,
    Signed = 2,
}

// The code of an edition in a message.
impl From<Edition> for u64 {
    ghost from_gives = { λ edition code. code ≡ edition_code edition };

    fn from(edition: Edition) -> u64 {
        edition as u64
    }
}

// The edition that has a code. One impl for each enum with codes: they share a shape, and no code.
impl TryFrom<u64> for Edition {
    type Error = Reason;

    ghost try_from_gives = { λ code r. r ≡ ok_or (edition_coded code) reason.Edition };

    fn try_from(code: u64) -> Result<Edition, Reason> {
        match code {
            1 => Ok(Edition::Unsigned),
            2 => Ok(Edition::Signed),
            _ => Err(Reason::Edition),
        }
    }
}
