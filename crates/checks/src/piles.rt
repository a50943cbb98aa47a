// Layers over layers over a lent depth book.
ghost use Rattle.std.specs.Prelude.{◌≡◌};
ghost use Rattle.simple.specs.Take.{after, take_answer, taken};

use holds::HoldLayer;
use refusals::Refusal;
use simple::{Side, SimpleBook};

// Takes through a layer that holds nothing: the book below is left as a take of its own would leave it.
pub(crate) fn take_through<B: SimpleBook>(
    book: B,
    series: u32,
    side: Side,
    quantity: u32,
) -> (B, Result<(), Refusal>)
    ensures answer { result.1 ≡ take_answer (B.lots book) series side quantity }
    ensures lots { B.lots result.0 ≡ after result.1 (taken (B.lots book) series side quantity) (B.lots book) }
    ensures frame { B.frame result.0 ≡ B.frame book }
{
    let mut layer = HoldLayer::new(book);
    let answer = layer.take(series, side, quantity);
    let (book, _) = layer.into_parts();
    (book, answer)
}

// The same through two layers, by the same function: whoever lends a depth book knows its lists afterwards.
pub(crate) fn take_through_two<B: SimpleBook>(
    book: B,
    series: u32,
    side: Side,
    quantity: u32,
) -> (B, Result<(), Refusal>)
    ensures answer { result.1 ≡ take_answer (B.lots book) series side quantity }
    ensures lots { B.lots result.0 ≡ after result.1 (taken (B.lots book) series side quantity) (B.lots book) }
{
    let (layer, answer) = take_through(HoldLayer::new(book), series, side, quantity);
    let (book, _) = layer.into_parts();
    (book, answer)
}

#[cfg(test)]
mod tests {
    use super::*;
    use crate::fillers::{NO_LOT, lot};
    use depth::DepthBook;
    use simple::Best;

    #[test]
    fn a_depth_book_is_taken_from_through_two_layers(rt: HostRuntime) {
        let mut memory = [NO_LOT; 1024];
        let mut depth = DepthBook::open(&mut memory);
        assert!(rt; depth.post(3, Side::Offer, lot(false, 100, 10)).is_ok());
        assert!(rt; depth.post(3, Side::Offer, lot(true, 100, 5)).is_ok());
        let (_, answer) = take_through_two(&mut depth, 3, Side::Offer, 7);
        assert!(rt; answer.is_ok());
        assert_eq!(rt;
            depth.best(3, Side::Offer),
            Some(Best {
                price: 100,
                size: 8,
                customer: 0,
            })
        );
        assert!(rt; depth.withdraw(2).is_err());
    }
}
