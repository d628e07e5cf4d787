// Makes every single fault of each tree of data/ that its arguments name, and writes the answer of the call on the sheet beside it: the bytes of the report or
// the refusal's number, in six columns, a line each. The faults go by places from the left: the byte there is deleted, doubled, and replaced by each of ten
// bytes in turn. What has to come is from the independent implementation (compare/run --newick-faults).
#![tactic(auto)]

use reply::SHEET;
use reply_newick::TREE;
use std::alloc::{AllocError, Global};
use std::rt::Files;
use std::{env, io};

// What each byte is replaced by.
const REPLACEMENTS: [u8; 10] = [b'(', b')', b',', b';', b'0', b'1', b'9', b' ', b'\n', b'a'];

// A text with the byte at a place replaced.
fn spliced(alloc: Global, text: &[u8], at: usize, by: &[u8]) -> Result<Vec<u8>, AllocError> {
    let mut out = Vec::new(alloc);
    for (i, byte) in text.iter().enumerate() {
        if i == at {
            out.extend_from_slice(by)?;
        } else {
            out.push(*byte)?;
        }
    }
    Ok(out)
}

// Scores a sheet with a damaged tree.
fn score_one(rt: &impl Print, sheet: &[u8], tree: &[u8]) -> io::Result<()> {
    let mut result = [0; score::LEAST_BYTES];
    let mut scratch = [0; score::LEAST_WORDS];
    let answer = score_newick::score_newick(sheet, tree, &mut result, &mut scratch);
    println!(rt; "{:>6}", answer::number(answer))
}

// All faults at a place, where this byte stands.
fn score_place(
    rt: &impl Print,
    alloc: Global,
    sheet: &[u8],
    tree: &[u8],
    at: usize,
    byte: u8,
) -> io::Result<()> {
    score_one(rt, sheet, spliced(alloc, tree, at, &[])?.as_slice())?;
    score_one(
        rt,
        sheet,
        spliced(alloc, tree, at, &[byte, byte])?.as_slice(),
    )?;
    for other in REPLACEMENTS {
        score_one(rt, sheet, spliced(alloc, tree, at, &[other])?.as_slice())?;
    }
    Ok(())
}

// All faults of the tree of a name.
fn score_named<R: Files + Print>(rt: &R, alloc: Global, name: &str) -> io::Result<()> {
    let (mut sheet, mut tree) = ([0; SHEET], [0; TREE]);
    let read = test_files::read_with_tree(rt, name, &mut sheet, &mut tree)?;
    let Some((bytes, length)) = read else {
        return println!(rt; "{name} is missing, or its tree");
    };
    println!(rt; "{name}")?;
    let (sheet, tree) = (&sheet[..bytes], &tree[..length]);
    for (at, byte) in tree.iter().enumerate() {
        score_place(rt, alloc, sheet, tree, at, *byte)?;
    }
    Ok(())
}

fn main(rt: HostRuntime) -> io::Result<()> {
    for name in env::args(&rt)?.skip(1) {
        score_named(&rt, rt.alloc(), name.as_str())?;
    }
    Ok(())
}
