// Scores each sheet of data/ that its arguments name. Of each it writes the name, and the report and the first words of the scratch, or the refusal's
// number in six columns and a line feed. What the sheets come to is from the independent implementation (compare/run --corpus), the smaller ones checked
// there by enumerating all settings. First stand 31 worked out by hand, each with the reason that it is there (compare/src/worked.rs): known sheets,
// networks for each refusal from 6 to 11, settings that tie, components of 8 and of 5. Then 113 from a generator: deep and wide networks, many components,
// components of 8, n = m = 127, and damaged sheets for every refusal.
#![tactic(auto)]

use reply::SHEET;
use std::rt::Files;
use std::{env, io};
use test_outcomes::{Outcome, UNTOUCHED};

fn score_one(rt: &impl Print, sheet: &[u8]) -> io::Result<()> {
    let mut result = [0; score::LEAST_BYTES];
    let mut scratch = [UNTOUCHED; score::LEAST_WORDS];
    let answer = score::score(sheet, &mut result, &mut scratch);
    let outcome = Outcome {
        answer,
        result: &result,
        scratch: &scratch,
    };
    print!(rt; "{outcome}")
}

// Scores the sheet of a name.
fn score_named<R: Files + Print>(rt: &R, name: &str) -> io::Result<()> {
    let mut sheet = [0; SHEET];
    let Some(bytes) = test_files::read(rt, name, b".sheet", &mut sheet)? else {
        return println!(rt; "{name} is missing");
    };
    println!(rt; "{name}")?;
    score_one(rt, &sheet[..bytes])
}

fn main(rt: HostRuntime) -> io::Result<()> {
    for name in env::args(&rt)?.skip(1) {
        score_named(&rt, name.as_str())?;
    }
    Ok(())
}
