// A layer over any simple book that keeps series on hold.
ghost use Rattle.std.specs.Prelude.{◌≡◌, ℕ, ◌<◌, true, false, length, Ok, slice_set};
ghost use Rattle.refusals.specs.declared.station.Station.TheVariants.{Hold, Release};
ghost use Rattle.simple.specs.Take.{after};
ghost use Rattle.holds.specs.Hold.{HoldFrame, layer_lots, layer_frame, hold_frame, beneath, shown, on_hold, re_marked, no_marks, no_lots, mark_answer, with_series};
ghost use Rattle.holds.specs.Lawfulness.{shown_lawful};

use refusals::{Reason, Refusal, Station};
use simple::{Best, LAST_SERIES, SERIES_COUNT, Side, SimpleBook};

// For each series whether it is on hold.
pub type Marks = [bool; SERIES_COUNT];

// A simple book under marks: a series on hold has two empty sides, every other is as in the book.
#[derive(Drop)]
pub struct HoldLayer<B> {
    book: B,
    marks: Marks,
}

// No series on hold.
fn no_marks() -> Marks
    ensures marks { result ≡ no_marks }
    ensures clear { (s : ℕ) → on_hold result s ≡ false }
{
    [false; SERIES_COUNT]
}

// Each change of a mark says that the book stays: a fact of before and after, which no type can hold.
impl<B: SimpleBook> HoldLayer<B> {
    // The book with no series on hold.
    pub fn new(book: B) -> HoldLayer<B>
        ensures book { result.book ≡ book }
        ensures marks { result.marks ≡ no_marks }
        ensures lots { layer_lots B.lots result ≡ B.lots book }
        ensures frame { layer_frame B.lots B.frame result ≡ hold_frame no_marks (B.lots book) (B.frame book) }
    {
        HoldLayer {
            book,
            marks: no_marks(),
        }
    }

    // The book under any marks.
    pub fn from_parts(book: B, marks: Marks) -> HoldLayer<B>
        ensures book { result.book ≡ book }
        ensures marks { result.marks ≡ marks }
        ensures lots { layer_lots B.lots result ≡ shown marks (B.lots book) }
        ensures frame { layer_frame B.lots B.frame result ≡ hold_frame marks (B.lots book) (B.frame book) }
    {
        HoldLayer { book, marks }
    }

    // The book and the marks, from which the same layer can be made again.
    pub fn into_parts(self) -> (B, Marks)
        ensures book { result.0 ≡ self.book }
        ensures marks { result.1 ≡ self.marks }
        ensures lots { shown result.1 (B.lots result.0) ≡ layer_lots B.lots self }
        ensures frame { hold_frame result.1 (B.lots result.0) (B.frame result.0) ≡ layer_frame B.lots B.frame self }
        ensures below { B.lots result.0 ≡ beneath (layer_frame B.lots B.frame self) (layer_lots B.lots self) }
    {
        let HoldLayer { book, marks } = self;
        (book, marks)
    }

    // Puts a series on hold: its two sides are empty.
    pub fn hold(&mut self, series: u32) -> Result<(), Refusal>
        ensures answer { result ≡ mark_answer Hold series }
        ensures book { self.new.book ≡ self.old.book }
        ensures marks { self.new.marks ≡ after result (slice_set self.old.marks series true) self.old.marks }
        ensures held { on_hold self.new.marks ≡ after result (re_marked self.old.marks series true) (on_hold self.old.marks) }
        ensures lots { layer_lots B.lots self.new ≡ after result (with_series (layer_lots B.lots self.old) series no_lots) (layer_lots B.lots self.old) }
    {
        self.mark(Station::Hold, series, true)
    }

    // Releases a series: its two sides are those of the book below.
    pub fn release(&mut self, series: u32) -> Result<(), Refusal>
        ensures answer { result ≡ mark_answer Release series }
        ensures book { self.new.book ≡ self.old.book }
        ensures marks { self.new.marks ≡ after result (slice_set self.old.marks series false) self.old.marks }
        ensures held { on_hold self.new.marks ≡ after result (re_marked self.old.marks series false) (on_hold self.old.marks) }
        ensures lots { layer_lots B.lots self.new ≡ after result (with_series (layer_lots B.lots self.old) series (B.lots self.old.book series)) (layer_lots B.lots self.old) }
    {
        self.mark(Station::Release, series, false)
    }

    // Sets or clears the mark of a series, unless no book carries it.
    fn mark(&mut self, at: Station, series: u32, held: bool) -> Result<(), Refusal>
        ensures answer { result ≡ mark_answer at series }
        ensures book { self.new.book ≡ self.old.book }
        ensures marks { self.new.marks ≡ after result (slice_set self.old.marks series held) self.old.marks }
        ensures sized { result ≡ Ok tt → series < length self.old.marks }
    {
        if series > LAST_SERIES {
            return Err(Refusal::at(at, Reason::NoSeries));
        }
        self.marks[series as usize] = held;
        Ok(())
    }

    // Whether a series is on hold.
    fn holds(&self, series: u32) -> bool
        ensures { result ≡ on_hold self.now.marks series }
    {
        series <= LAST_SERIES && self.marks[series as usize]
    }
}

impl<B: SimpleBook> SimpleBook for HoldLayer<B> {
    ghost lots = { layer_lots B.SimpleBook.lots };

    ghost lawful = { λ h. shown_lawful h.marks (B.SimpleBook.lots h.book) (B.SimpleBook.lawful h.book) };

    ghost Frame = { HoldFrame B.SimpleBook.Frame };

    ghost frame = { layer_frame B.SimpleBook.lots B.SimpleBook.frame };

    fn best(&mut self, series: u32, side: Side) -> Option<Best> {
        if self.holds(series) {
            return None;
        }
        self.book.best(series, side)
    }

    fn take(&mut self, series: u32, side: Side, quantity: u32) -> Result<(), Refusal> {
        if self.holds(series) {
            return Err(Refusal::at(Station::Take, Reason::TooMany));
        }
        self.book.take(series, side, quantity)
    }
}
