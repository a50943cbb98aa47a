// The lines of a run, read one by one, and the answers to them, printed.
use crate::answer::Answer;
use crate::said::{Said, read_words};
use crate::texts::reply_text;
use lines::words::is_passed_over;
use std::alloc::Global;
use std::io::{BufRead, BufReader, Split, Stdin};
use text::words::words;

// What is left of the input, the lines so far, and whether one of them was an error.
#[derive(Drop)]
pub(crate) struct Input {
    lines: Split<BufReader<Stdin>>,
    number: u64,
    pub(crate) has_errors: bool,
}

impl Input {
    pub(crate) fn new(rt: &HostRuntime) -> anyhow::Result<Input> {
        let lines = BufReader::new(rt.alloc(), rt.stdin())?.split(rt.alloc(), b'\n');
        Ok(Input {
            lines,
            number: 0,
            has_errors: false,
        })
    }

    // What the next line says that is not passed over.
    pub(crate) fn next(&mut self, heap: Global) -> anyhow::Result<Option<Said>> {
        for line in self.lines.by_ref() {
            let line = line?;
            self.number = self.number.saturating_add(1);
            let words = words(heap, line.as_slice())?;
            if !is_passed_over(words.as_slice()) {
                return Ok(Some(read_words(heap, self.number, words.as_slice())?));
            }
        }
        Ok(None)
    }

    // Prints a line and its answer.
    pub(crate) fn print(
        &mut self,
        rt: &HostRuntime,
        said: &Said,
        answer: Answer,
    ) -> anyhow::Result<()> {
        let text = reply_text(rt.alloc(), said.line, said.words.as_str(), answer)?;
        rt.print(text.as_str())?;
        if let Answer::Wrong(_) = answer {
            self.has_errors = true;
        }
        Ok(())
    }
}
