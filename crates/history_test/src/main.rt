// Scores each sheet of data/ that its arguments name and shows its history, as score_test scores sheets: of each it writes the name, and the report, the lines
// of the history and the first words of the scratch, or the refusal's number in six columns and a line feed. What they come to is from the independent
// implementation (compare/run --history-test): each history is replayed there line by line, and where a family has few of them all are listed and
// compared. Worked out by hand are known sheets and ties (compare/src/worked_history.rs). Then come sheets for each refusal, random families, and the
// longest history.
#![tactic(auto)]

use reply::SHEET;
use std::alloc::Global;
use std::rt::Files;
use std::{env, io};
use test_outcomes::{Outcome, UNTOUCHED};

fn score_one(rt: &impl Print, alloc: Global, sheet: &[u8]) -> io::Result<()> {
    let mut result = vec![in alloc; 0; score_history::LEAST_BYTES]?;
    let mut scratch = [UNTOUCHED; score::LEAST_WORDS];
    let answer = score_history::score_history(sheet, &mut result, &mut scratch);
    let outcome = Outcome {
        answer,
        result: &result,
        scratch: &scratch,
    };
    print!(rt; "{outcome}")
}

// Scores the sheet of a name.
fn score_named<R: Files + Print>(rt: &R, alloc: Global, name: &str) -> io::Result<()> {
    let mut sheet = [0; SHEET];
    let Some(bytes) = test_files::read(rt, name, b".sheet", &mut sheet)? else {
        return println!(rt; "{name} is missing");
    };
    println!(rt; "{name}")?;
    score_one(rt, alloc, &sheet[..bytes])
}

fn main(rt: HostRuntime) -> io::Result<()> {
    for name in env::args(&rt)?.skip(1) {
        score_named(&rt, rt.alloc(), name.as_str())?;
    }
    Ok(())
}
