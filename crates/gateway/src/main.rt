// Reads what order gateways sent, as hexadecimal text, and prints what each message says under the edition that it names.

#![tactic(auto)]

mod answers;
mod commands;
mod tally;
mod texts;

use crate::answers::answer;
use crate::tally::Tally;
use anyhow::anyhow;
use lines::words::is_passed_over;
use std::io::{BufRead, BufReader};
use text::words::words;

fn main(rt: HostRuntime) -> anyhow::Result<()> {
    let heap = rt.alloc();
    let mut tally = Tally::new();
    // counted by hand, up to the greatest number: no clause bounds how many lines there are
    let mut number: u64 = 0;
    for line in BufReader::new(heap, rt.stdin())?.split(heap, b'\n') {
        let line = line?;
        number = number.saturating_add(1);
        let words = words(heap, line.as_slice())?;
        if is_passed_over(words.as_slice()) {
            continue;
        }
        let reply = answer(heap, number, words.as_slice())?;
        rt.print(reply.text.as_str())?;
        tally = tally.counted(reply.outcome);
    }
    rt.println(tally)?;
    if tally.errors > 0 {
        return Err(anyhow!("some lines are neither messages nor commands"));
    }
    Ok(())
}
