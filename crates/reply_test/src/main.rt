// Replies to each sheet of data/ that its arguments name, as the program lgt_score does, and compares the reply with the report beside the sheet. The
// reports are from the rules or worked out apart from the program: tools/test_sheets.py makes most of the sheets and says how, and compare/run holds
// all of them to the independent implementation. data/ is a copy of the folder sheets/ of the repository.
#![tactic(auto)]

use std::rt::Files;
use std::{env, io};

// Whether the reply to a sheet is the report beside it. As much of a sheet is read as the program reads, and of a report a byte more than the longest.
fn is_as_expected<R: Files>(rt: &R, name: &str) -> io::Result<bool> {
    let mut sheet = [0; reply::SHEET];
    let Some(bytes) = test_files::read(rt, name, b".sheet", &mut sheet)? else {
        return Ok(false);
    };
    let mut expected = [0; score::LEAST_BYTES + 1];
    let Some(length) = test_files::read(rt, name, b".report", &mut expected)? else {
        return Ok(false);
    };
    let mut out = [0; score::LEAST_BYTES];
    let written = reply::reply(&sheet, bytes, &mut out);
    Ok(&out[..written] == &expected[..length])
}

fn compare<R: Files + Print>(rt: &R, name: &str) -> io::Result<()> {
    if is_as_expected(rt, name)? {
        println!(rt; "{name}: as expected")
    } else {
        println!(rt; "{name}: another reply, or a file is missing")
    }
}

fn main(rt: HostRuntime) -> io::Result<()> {
    for name in env::args(&rt)?.skip(1) {
        compare(&rt, name.as_str())?;
    }
    Ok(())
}
