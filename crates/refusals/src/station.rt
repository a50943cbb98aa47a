// The stations: the parts of the engine that refuse.
ghost use Rattle.std.specs.Prelude.{◌≡◌, Some};
ghost use Rattle.refusals.specs.Stations.{name_of};

use std::fmt;

// Where a call was refused. A row of the refusal table that several calls share answers the station of the call made.
#[derive(Clone, Copy, PartialEq, Eq, Debug)]
pub enum Station {
    Opening,
    Reader,
    Writer,
    Define,
    Place,
    Evaluate,
    Net,
    Cancel,
    Display,
    Quote,
    Post,
    Withdraw,
    Take,
    Hold,
    Release,
}

impl Station {
    // The station's name as programs print it: no derive gives a name in small letters.
    pub fn name(self) -> &'static str
        ensures { result.now ≡ name_of self }
    {
        match self {
            Station::Opening => "opening",
            Station::Reader => "reader",
            Station::Writer => "writer",
            Station::Define => "define",
            Station::Place => "place",
            Station::Evaluate => "evaluate",
            Station::Net => "net",
            Station::Cancel => "cancel",
            Station::Display => "display",
            Station::Quote => "quote",
            Station::Post => "post",
            Station::Withdraw => "withdraw",
            Station::Take => "take",
            Station::Hold => "hold",
            Station::Release => "release",
        }
    }
}

impl fmt::Display for Station {
    ghost output = { λ s. Some (name_of s) };

    fn fmt<W: fmt::Write>(&self, f: &mut fmt::Formatter<W>) -> fmt::Result {
        f.write_str(self.name())
    }
}
