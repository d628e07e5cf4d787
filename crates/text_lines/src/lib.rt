// Lines of a sheet or a report: fields and a line feed. Read by a cursor, written into the part of the result that is lent.
#![tactic(auto)]

ghost use Rattle.std.specs.Prelude.{◌≡◌, [], ◌+◌, ◌≤◌, length};
ghost use Rattle.columns.specs.Writing.{written, put};
ghost use Rattle.text_lines.specs.Lines.{line_of, line_length, end_at, Small, LineRead};

use columns::{Cursor, WIDTH};

// How many fields a line has. What each one is, is told where a line is taken apart (`sheet`) and put together (`report`).
pub const FIELDS: usize = 5;

// The bytes of a line: its fields and a line feed.
pub const LINE: usize = WIDTH * FIELDS + 1;

// How a line ends after its last field: behind the line feed, if there is one.
#[tactic(auto, unfolding(crate::specs::Lines::end_at, crate::specs::Lines::malformed))]
fn line_end(s: &[u8], c: Cursor) -> Option<Cursor>
    ensures { result ≡ (end_at s.now c.at []).end }
{
    let next = *s.get(c.at)?;
    (next == b'\n').then_some(Cursor { at: c.at + 1 })
}

// The numbers of the line at a cursor, read field by field from the left; and the cursor after it.
pub fn read_line(s: &[u8], start: Cursor) -> Option<([u32; FIELDS], Cursor)>
    ensures { LineRead s.now start.at result }
{
    let mut line = [0; FIELDS];
    let mut c = start;
    for number in &mut line {
        (*number, c) = c.field(s)?;
    }
    let end = line_end(s, c)?;
    Some((line, end))
}

// Writes a line into the front of what is lent. (The place of a field is computed: of a slice that `chunks_exact_mut` was lent, a proof knows afterwards how
// long it is, and not what stands in it.)
#[tactic(auto, using(crate::proofs::Lines::write_turn, crate::proofs::Lines::write_done))]
pub fn write_line(out: &mut [u8], line: &[u32; FIELDS])
    requires { (line_length ≤ length out.old) × Small line.now }
    ensures { out.new ≡ written out.old (line_of line.now) }
{
    for (i, n) in line.iter().enumerate() {
        let at = WIDTH * i;
        columns::write_field(&mut out[at..], *n);
    }
    out[WIDTH * FIELDS] = b'\n';
}

// Writes a line at a place of the result: the part from there on is lent to the line writer, as the rules name it. Returns the place after the line.
#[tactic(auto, using(columns::proofs::Writing::lent))]
pub fn append_line(res: &mut [u8], at: usize, line: &[u32; FIELDS]) -> usize
    requires { (at + line_length ≤ length res.old) × Small line.now }
    ensures { (res.new ≡ put res.old at (line_of line.now)) × (result ≡ at + line_length) }
{
    write_line(&mut res[at..], line);
    at + LINE
}
