// Worked cases of the calls.
ghost use Rattle.rules.specs.Worked.{Worked};

// What some calls come to: only its promise counts, which a caller can use as a theorem.
pub fn worked_cases() -> u8
    ensures { Worked }
{
    0
}
