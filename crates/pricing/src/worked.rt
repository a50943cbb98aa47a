// Worked cases of prices.
ghost use Rattle.pricing.specs.Worked.{Worked};

// What some prices come to.
pub fn worked_prices() -> u8
    ensures { Worked }
{
    0
}
