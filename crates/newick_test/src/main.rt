// Scores each sheet and tree of data/ that its arguments name, as score_test scores sheets alone: of each it writes the name, and the report and the first
// words of the scratch, or the refusal's number in six columns and a line feed. What they come to is from the independent implementation
// (compare/run --newick-test), the smaller ones checked there by enumerating all settings. Worked out by hand are known sheets with their trees as text,
// texts outside the grammar, sheets for each refusal before those of the text (compare/src/worked_newick.rs), and texts at the limits of bytes and genes
// (compare/src/limits.rs). Then come random families, and sheets and trees damaged for every refusal. Of a tree at most 575 bytes are read.
#![tactic(auto)]

use reply::SHEET;
use reply_newick::TREE;
use std::rt::Files;
use std::{env, io};
use test_outcomes::{Outcome, UNTOUCHED};

fn score_one(rt: &impl Print, sheet: &[u8], tree: &[u8]) -> io::Result<()> {
    let mut result = [0; score::LEAST_BYTES];
    let mut scratch = [UNTOUCHED; score::LEAST_WORDS];
    let answer = score_newick::score_newick(sheet, tree, &mut result, &mut scratch);
    let outcome = Outcome {
        answer,
        result: &result,
        scratch: &scratch,
    };
    print!(rt; "{outcome}")
}

// Scores the sheet and the tree of a name.
fn score_named<R: Files + Print>(rt: &R, name: &str) -> io::Result<()> {
    let (mut sheet, mut tree) = ([0; SHEET], [0; TREE]);
    let read = test_files::read_with_tree(rt, name, &mut sheet, &mut tree)?;
    let Some((bytes, length)) = read else {
        return println!(rt; "{name} is missing, or its tree");
    };
    println!(rt; "{name}")?;
    score_one(rt, &sheet[..bytes], &tree[..length])
}

fn main(rt: HostRuntime) -> io::Result<()> {
    for name in env::args(&rt)?.skip(1) {
        score_named(&rt, name.as_str())?;
    }
    Ok(())
}
