// The files of a test program: an argument of the program is a name, and its files have that name and an ending.
#![tactic(auto)]

ghost use Rattle.std.specs.Prelude.{◌≡◌, ◌+◌, ◌≤◌, ◌<◌, length, None, Ok, IfOk, IfSome, IfNone};

use std::fs::File;
use std::rt::Files;
use std::{io, str};

// A path is at most so long, where no room is lent for it: it is put together without allocating.
pub const PATH: usize = 64;

// Opens the file that the name and the ending name, if they fit what is lent for its path and it can be opened.
fn open<R: Files>(rt: &R, name: &str, ending: &[u8], path: &mut [u8]) -> Option<R::File>
    ensures too_long { length path.old < length name.now + length ending.now → (result ≡ None) × (path.new ≡ path.old) }
    ensures kept { length path.new ≡ length path.old }
{
    let length = name.len().checked_add(ending.len())?;
    if length > path.len() {
        return None;
    }
    path[..name.len()].copy_from_slice(name.as_bytes());
    path[name.len()..length].copy_from_slice(ending);
    let path = str::from_utf8(&path[..length]).ok()?;
    File::open(rt, path).ok()
}

// Reads the front of that file, as much as what is lent holds: how many bytes that is, or nothing where there is no such file that can be opened. The path is
// put together in what is lent for it, so that a name may have any length; where it does not fit there, the file counts as missing.
pub fn read_long<R: Files>(
    rt: &R,
    name: &str,
    ending: &[u8],
    path: &mut [u8],
    into: &mut [u8],
) -> io::Result<Option<usize>>
    ensures fits { IfOk result (λ got. IfSome got (λ bytes. bytes ≤ length into.old)) }
    ensures missing { IfOk result (λ got. IfNone got (into.new ≡ into.old)) }
    ensures too_long { length path.old < length name.now + length ending.now → (result ≡ Ok None) × (path.new ≡ path.old) }
    ensures kept { (length path.new ≡ length path.old) × (length into.new ≡ length into.old) }
{
    let Some(file) = open(rt, name, ending, path) else {
        return Ok(None);
    };
    Ok(Some(input::read_full(file, into)?))
}

// The same with 64 bytes for a path: a file whose path has more counts as missing.
pub fn read<R: Files>(
    rt: &R,
    name: &str,
    ending: &[u8],
    into: &mut [u8],
) -> io::Result<Option<usize>>
    ensures fits { IfOk result (λ got. IfSome got (λ bytes. bytes ≤ length into.old)) }
    ensures missing { IfOk result (λ got. IfNone got (into.new ≡ into.old)) }
    ensures too_long { PATH < length name.now + length ending.now → result ≡ Ok None }
    ensures kept { length into.new ≡ length into.old }
{
    read_long(rt, name, ending, &mut [0u8; PATH], into)
}

// Reads a sheet and the tree beside it: how many bytes each is, or nothing where one of them is not there. (The sheet's path is the longer one, by the 6 bytes
// of its ending.)
pub fn read_long_with_tree<R: Files>(
    rt: &R,
    name: &str,
    path: &mut [u8],
    sheet: &mut [u8],
    tree: &mut [u8],
) -> io::Result<Option<(usize, usize)>>
    ensures fits { IfOk result (λ got. IfSome got (λ bytes. (bytes.0 ≤ length sheet.old) × (bytes.1 ≤ length tree.old))) }
    ensures missing { IfOk result (λ got. IfNone got (tree.new ≡ tree.old)) }
    ensures too_long { length path.old < length name.now + 6 → (result ≡ Ok None) × (path.new ≡ path.old) × (sheet.new ≡ sheet.old) }
    ensures kept { (length path.new ≡ length path.old) × (length sheet.new ≡ length sheet.old) × (length tree.new ≡ length tree.old) }
{
    let Some(sheet_bytes) = read_long(rt, name, b".sheet", path, sheet)? else {
        return Ok(None);
    };
    let Some(tree_bytes) = read_long(rt, name, b".tree", path, tree)? else {
        return Ok(None);
    };
    Ok(Some((sheet_bytes, tree_bytes)))
}

// The same with 64 bytes for a path.
pub fn read_with_tree<R: Files>(
    rt: &R,
    name: &str,
    sheet: &mut [u8],
    tree: &mut [u8],
) -> io::Result<Option<(usize, usize)>>
    ensures fits { IfOk result (λ got. IfSome got (λ bytes. (bytes.0 ≤ length sheet.old) × (bytes.1 ≤ length tree.old))) }
    ensures missing { IfOk result (λ got. IfNone got (tree.new ≡ tree.old)) }
    ensures too_long { PATH < length name.now + 6 → (result ≡ Ok None) × (sheet.new ≡ sheet.old) }
    ensures kept { (length sheet.new ≡ length sheet.old) × (length tree.new ≡ length tree.old) }
{
    read_long_with_tree(rt, name, &mut [0u8; PATH], sheet, tree)
}
