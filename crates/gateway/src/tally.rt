// What came of each line, and the counts of a run.
ghost use Rattle.std.specs.Prelude.{◌≡◌, Some};
ghost use Rattle.gateway.specs.Answers.{complaint_text, nothing_counted, counted, tally_text};

use std::fmt;

// What came of a line.
#[derive(Clone, Copy)]
pub(crate) enum Outcome {
    // a message was read
    Read {
        // whether its limit is warned of
        warned: bool,
    },
    // bytes were no message
    Refused,
    // a message was to be written
    Written,
    // the line is neither
    Wrong,
}

// What is wrong with a line.
#[derive(Clone, Copy)]
pub(crate) enum Complaint {
    // `write` is followed by no message
    Unwritten,
    // there are more words than a message to read may have
    Overlong,
    // a word is no byte, and there is no such command
    Unknown,
}

impl fmt::Display for Complaint {
    ghost output = { λ c. Some (complaint_text c) };

    fn fmt<W: fmt::Write>(&self, f: &mut fmt::Formatter<W>) -> fmt::Result {
        f.write_str(match self {
            Complaint::Unwritten => "no message to write",
            Complaint::Overlong => "more than 64 bytes",
            Complaint::Unknown => "neither hexadecimal bytes nor a command",
        })
    }
}

// The counts of a run so far.
#[derive(Clone, Copy)]
pub(crate) struct Tally {
    pub(crate) messages: u64,
    pub(crate) read: u64,
    pub(crate) refused: u64,
    pub(crate) warnings: u64,
    pub(crate) errors: u64,
}

impl Tally {
    // No line was read yet.
    pub(crate) fn new() -> Tally
        ensures { result ≡ nothing_counted }
    {
        Tally {
            messages: 0,
            read: 0,
            refused: 0,
            warnings: 0,
            errors: 0,
        }
    }

    // The counts after a line.
    pub(crate) fn counted(self, outcome: Outcome) -> Tally
        ensures { result ≡ counted self outcome }
    {
        let mut tally = self;
        match outcome {
            Outcome::Read { warned } => {
                tally.messages = self.messages.saturating_add(1);
                tally.read = self.read.saturating_add(1);
                tally.warnings = self.warnings.saturating_add(u64::from(warned));
            }
            Outcome::Refused => {
                tally.messages = self.messages.saturating_add(1);
                tally.refused = self.refused.saturating_add(1);
            }
            Outcome::Written => {}
            Outcome::Wrong => tally.errors = self.errors.saturating_add(1),
        }
        tally
    }
}

// The last line of a run.
impl fmt::Display for Tally {
    ghost output = { λ t. Some (tally_text t) };

    fn fmt<W: fmt::Write>(&self, f: &mut fmt::Formatter<W>) -> fmt::Result {
        let Tally {
            messages,
            read,
            refused,
            warnings,
            errors: _,
        } = *self;
        write!(
            f,
            "messages {messages} read {read} refused {refused} warnings {warnings}"
        )
    }
}
