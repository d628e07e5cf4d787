// Reads one family sheet from standard input and writes its report, or `refused`, the refusal number in six columns and a line feed.
#![tactic(auto)]

use std::io;

fn main(rt: HostRuntime) -> io::Result<()> {
    let mut sheet = [0u8; reply::SHEET];
    let bytes = input::read_full(rt.stdin(), &mut sheet)?;
    let mut out = [0u8; score::LEAST_BYTES];
    let length = reply::reply(&sheet, bytes, &mut out);
    rt.write_all(&out[..length])
}
