// Worked cases of rows.
ghost use Rattle.strategies.specs.Worked.{Worked};

// Which of some rows stand: only its promise counts, which a caller can use as a theorem.
pub fn worked_rows() -> u8
    ensures { Worked }
{
    0
}
