// Reads a sheet, and a sheet with its tree, by each name that its arguments give: with the 64 bytes of `read` for a path, and with 128 lent for that of the
// sheet, and 127 for those of both. What has to come is the front of the files of data/ as they stand there, 12 bytes of a sheet and 8 of a tree, or that there
// are none, where one is missing or a path has not its room.
#![tactic(auto)]

use std::rt::Files;
use std::{env, io, str};

const PATH: usize = 128;

const PATHS: usize = 127;

const SHEET: usize = 12;

const TREE: usize = 8;

// What was read, as text.
fn text(read: &[u8]) -> &str {
    str::from_utf8(read).unwrap_or("no text")
}

// Shows a sheet.
fn show(rt: &impl Print, sheet: Option<&[u8]>) -> io::Result<()> {
    let Some(sheet) = sheet else {
        return println!(rt; "  no sheet");
    };
    println!(rt; "  {}", text(sheet))
}

// Shows a sheet and its tree.
fn show_both(rt: &impl Print, both: Option<(&[u8], &[u8])>) -> io::Result<()> {
    let Some((sheet, tree)) = both else {
        return println!(rt; "  not both");
    };
    println!(rt; "  {} {}", text(sheet), text(tree))
}

// The sheet of a name, by each room for the path.
fn read_sheet<R: Files + Print>(rt: &R, name: &str) -> io::Result<()> {
    let mut sheet = [0; SHEET];
    let read = test_files::read(rt, name, b".sheet", &mut sheet)?;
    show(rt, read.map(|bytes| &sheet[..bytes]))?;
    let read = test_files::read_long(rt, name, b".sheet", &mut [0; PATH], &mut sheet)?;
    show(rt, read.map(|bytes| &sheet[..bytes]))
}

// The sheet and the tree of a name, by each room for the path.
fn read_both<R: Files + Print>(rt: &R, name: &str) -> io::Result<()> {
    let (mut sheet, mut tree) = ([0; SHEET], [0; TREE]);
    let read = test_files::read_with_tree(rt, name, &mut sheet, &mut tree)?;
    show_both(rt, read.map(|(a, b)| (&sheet[..a], &tree[..b])))?;
    let read = test_files::read_long_with_tree(rt, name, &mut [0; PATHS], &mut sheet, &mut tree)?;
    show_both(rt, read.map(|(a, b)| (&sheet[..a], &tree[..b])))
}

fn main(rt: HostRuntime) -> io::Result<()> {
    for name in env::args(&rt)?.skip(1) {
        println!(rt; "{name}")?;
        read_sheet(&rt, name.as_str())?;
        read_both(&rt, name.as_str())?;
    }
    Ok(())
}
