// The calls through the hold layer, over any simple book.
ghost use Rattle.std.specs.Prelude.{◌≡◌};
ghost use Rattle.holds.specs.Hold.{layer_lots};
ghost use Rattle.replay.specs.Calls.{done_answer, layer_answer, layer_leaves, marks_after};

use crate::answer::Answer;
use crate::command::LayerCall;
use holds::HoldLayer;
use refusals::Refusal;
use simple::SimpleBook;

// The answer to a call that says no more than that it was done.
pub(crate) fn done_answer(answer: Result<(), Refusal>) -> Answer
    ensures { result ≡ done_answer answer }
{
    match answer {
        Ok(()) => Answer::Done,
        Err(refusal) => Answer::Refused(refusal),
    }
}

// Makes a call of a layer.
pub(crate) fn call_layer<B: SimpleBook>(layer: &mut HoldLayer<B>, call: LayerCall) -> Answer
    ensures answer { result ≡ layer_answer (layer_lots B.lots layer.old) call }
    ensures lots { B.lots layer.new.book ≡ layer_leaves layer.old.marks (B.lots layer.old.book) call }
    ensures marks { layer.new.marks ≡ marks_after layer.old.marks call }
    ensures frame { B.frame layer.new.book ≡ B.frame layer.old.book }
{
    match call {
        LayerCall::Best { series, side } => Answer::Best(layer.best(series, side)),
        LayerCall::Take {
            series,
            side,
            quantity,
        } => done_answer(layer.take(series, side, quantity)),
        LayerCall::Hold(series) => done_answer(layer.hold(series)),
        LayerCall::Release(series) => done_answer(layer.release(series)),
    }
}
