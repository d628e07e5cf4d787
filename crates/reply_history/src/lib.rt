// What is written for a family sheet where the history is shown: the report and the lines of the history, or the line of the refusal.
#![tactic(auto)]

ghost use Rattle.std.specs.Prelude.{◌≡◌, ◌≤◌, ◌<◌, length};
ghost use Rattle.reply.specs.Replies.{longest_sheet, RepliedWith};
ghost use Rattle.score_history.specs.Buffers.{least_bytes};
ghost use Rattle.score_history.specs.Outcome.{bytes_in};

// Writes the report and the history of the sheet that is read into a text, or the line of its refusal, and returns how many bytes that is. The text is lent
// whole, as in crate reply.
pub fn reply_history(text: &[u8], bytes: usize, out: &mut [u8]) -> usize
    requires { (longest_sheet < length text.now) × (bytes ≤ length text.now) × (length out.old ≡ least_bytes) }
    ensures { RepliedWith least_bytes bytes_in text.now bytes out.old out.new result }
{
    let mut scratch = [0; score::LEAST_WORDS];
    let answer = score_history::score_history(&text[..bytes], out, &mut scratch);
    reply::write_answer(out, answer)
}
