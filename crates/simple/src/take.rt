// Whether a quantity can be taken from a side.
ghost use Rattle.std.specs.Prelude.{◌≡◌};
ghost use Rattle.simple.specs.Best.{best_size};
ghost use Rattle.simple.specs.Take.{take_test};

use crate::limits::LAST_SERIES;
use crate::lot::Best;
use refusals::{Reason, Refusal, Station};

// Whether a quantity can be taken from a side of a series where this is best, or why not.
pub fn allow_take(series: u32, best: Option<Best>, quantity: u32) -> Result<(), Refusal>
    ensures { result ≡ take_test series (best_size best) quantity }
{
    if series > LAST_SERIES {
        return Err(Refusal::at(Station::Take, Reason::NoSeries));
    }
    if quantity == 0 || quantity > best.map_or(0, |best| best.size) {
        return Err(Refusal::at(Station::Take, Reason::TooMany));
    }
    Ok(())
}
