// What is written for a family sheet: its report, or the line of its refusal.
#![tactic(auto)]

ghost use Rattle.std.specs.Prelude.{◌≡◌, ◌≤◌, ◌<◌, length};
ghost use Rattle.columns.specs.Writing.{written};
ghost use Rattle.family.specs.Buffers.{least_bytes};
ghost use Rattle.refusals.specs.Numbers.{number};
ghost use Rattle.reply.specs.Refused.{refused_line};
ghost use Rattle.reply.specs.Replies.{longest_sheet, Replied};
ghost use Rattle.reply.specs.inner.Told.{told_in, told_bytes};

use answer::Answer;
use columns::WIDTH;
use refusals::Refusal;
use tables::MOST;

// The room for a sheet that is read: one byte more than the longest has, so that a longer one is noticed.
pub const SHEET: usize = text_lines::LINE * (1 + MOST + MOST) + 1;

// The line of a refusal: a word of as many bytes, the number in six columns, and a line feed.
const WORD: usize = 7;

const LINE: usize = WORD + WIDTH + 1;

// The line that tells a refusal. (Its number is written by columns over the 0: formatted output allocates, or has no contract on its bytes.)
fn refused_line(refusal: Refusal) -> [u8; LINE]
    ensures { result ≡ refused_line (number refusal) }
{
    let mut line = *b"refused     0\n";
    columns::write_field(&mut line[WORD..], refusal.number());
    line
}

// Writes that line to the front of what is lent, and returns its length.
fn write_refusal(out: &mut [u8], refusal: Refusal) -> usize
    requires { 14 ≤ length out.old }
    ensures { (out.new ≡ written out.old (refused_line (number refusal))) × (result ≡ length (refused_line (number refusal))) }
{
    let line = refused_line(refusal);
    out[..LINE].copy_from_slice(&line);
    LINE
}

// Tells the answer of a call in the result that it was lent, where a report stands already, and returns how many bytes that is.
pub fn write_answer(out: &mut [u8], answer: Answer) -> usize
    requires { 14 ≤ length out.old }
    ensures { (out.new ≡ told_in out.old answer) × (result ≡ told_bytes answer) }
{
    match answer {
        Ok(bytes) => bytes,
        Err(refusal) => write_refusal(out, refusal),
    }
}

// Writes the report of the sheet that is read into a text, or the line of its refusal, and returns how many bytes that is. The text is lent whole, with
// the count beside it: that it has room for more than the longest sheet is what tells a sheet that was read whole from one that was cut.
pub fn reply(text: &[u8], bytes: usize, out: &mut [u8]) -> usize
    requires { (longest_sheet < length text.now) × (bytes ≤ length text.now) × (length out.old ≡ least_bytes) }
    ensures { Replied text.now bytes out.old out.new result }
{
    let mut scratch = [0; score::LEAST_WORDS];
    let answer = score::score(&text[..bytes], out, &mut scratch);
    write_answer(out, answer)
}
