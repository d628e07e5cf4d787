// Reads one family sheet from standard input and writes its report and, behind it, the lines of its history, or `refused`, the refusal number in six columns
// and a line feed.
#![tactic(auto)]

use std::io;

fn main(rt: HostRuntime) -> io::Result<()> {
    let mut sheet = [0u8; reply::SHEET];
    let bytes = input::read_full(rt.stdin(), &mut sheet)?;
    let mut out = vec![in rt.alloc(); 0u8; score_history::LEAST_BYTES]?;
    let length = reply_history::reply_history(&sheet, bytes, &mut out);
    rt.write_all(&out[..length])
}
