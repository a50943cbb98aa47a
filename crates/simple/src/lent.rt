// A simple book that is lent is a simple book.
ghost use Rattle.std.specs.Prelude.{ℕ};

use crate::book::SimpleBook;
use crate::lot::{Best, Side};
use refusals::Refusal;

// The book behind a reference; best and take leave the reference as it is.
impl<'a, B: SimpleBook> SimpleBook for &'a mut B {
    ghost lots = { λ b. B.SimpleBook.lots b.now };

    ghost lawful = { λ b. B.SimpleBook.lawful b.now };

    ghost Frame = { ℕ × B.SimpleBook.Frame };

    ghost frame = { λ b. (b.ghost_name, B.SimpleBook.frame b.now) };

    fn best(&mut self, series: u32, side: Side) -> Option<Best> {
        (**self).best(series, side)
    }

    fn take(&mut self, series: u32, side: Side, quantity: u32) -> Result<(), Refusal> {
        (**self).take(series, side, quantity)
    }
}
