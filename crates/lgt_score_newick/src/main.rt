// Reads one family sheet without gene lines from standard input and its gene tree as Newick text from the file that its argument names, and writes the report,
// or `refused`, the refusal number in six columns and a line feed.
#![tactic(auto)]

ghost use Rattle.std.specs.Prelude.{◌≡◌, ◌≤◌, length, IfOk};

use std::fs::File;
use std::process::ExitCode;
use std::rt::Files;
use std::{env, io};

// Reads the front of a file, as much as what is lent holds, and returns how many bytes that is.
fn read_file<R: Files>(rt: &R, name: &str, into: &mut [u8]) -> io::Result<usize>
    ensures fits { IfOk result (λ bytes. bytes ≤ length into.old) }
    ensures kept { length into.new ≡ length into.old }
{
    input::read_full(File::open(rt, name)?, into)
}

fn main(rt: HostRuntime) -> io::Result<ExitCode> {
    let mut arguments = env::args(&rt)?.skip(1);
    let (Some(name), None) = (arguments.next(), arguments.next()) else {
        eprintln!(rt;
            "lgt_score_newick TREE: scores the sheet on standard input with the gene tree in the file TREE"
        )?;
        return Ok(ExitCode::FAILURE);
    };
    let mut tree = [0u8; reply_newick::TREE];
    let tree_bytes = match read_file(&rt, name.as_str(), &mut tree) {
        Ok(bytes) => bytes,
        Err(error) => {
            eprintln!(rt; "lgt_score_newick: the gene tree {name} cannot be read: {error}")?;
            return Ok(ExitCode::FAILURE);
        }
    };
    let mut sheet = [0u8; reply::SHEET];
    let sheet_bytes = input::read_full(rt.stdin(), &mut sheet)?;
    let mut out = [0u8; score::LEAST_BYTES];
    let reply = reply_newick::reply_newick(&sheet, sheet_bytes, &tree, tree_bytes, &mut out);
    rt.write_all(&out[..reply.bytes])?;
    if reply.line_feed {
        eprintln!(rt;
            "lgt_score_newick: the text of the tree ends in a line feed, and a semicolon has to be its last byte"
        )?;
    }
    Ok(ExitCode::SUCCESS)
}
