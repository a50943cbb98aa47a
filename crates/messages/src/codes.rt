// The codes that stand for kinds in a message.
ghost use Rattle.std.specs.Prelude.{◌≡◌};
ghost use Rattle.std.specs.Option.{ok_or};
ghost use Rattle.refusals.specs.declared.reason.Reason.TheVariants as reason;
ghost use Rattle.messages.specs.Codes.{kind_coded};

use refusals::Reason;

// What a message asks for; the numbers are the codes.
#[derive(Clone, Copy)]
pub(crate) enum Kind {
    Place = 1,
    Cancel = 2,
    Evaluate = 3,
    Define = 4,
}

// The kind that has a code.
impl TryFrom<u64> for Kind {
    type Error = Reason;

    ghost try_from_gives = { λ code r. r ≡ ok_or (kind_coded code) reason.Kind };

    fn try_from(code: u64) -> Result<Kind, Reason> {
        match code {
            1 => Ok(Kind::Place),
            2 => Ok(Kind::Cancel),
            3 => Ok(Kind::Evaluate),
            4 => Ok(Kind::Define),
            _ => Err(Reason::Kind),
        }
    }
}
