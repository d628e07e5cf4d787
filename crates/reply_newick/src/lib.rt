// What is written for a family sheet without gene lines and a gene tree as Newick text: the report, or the line of the refusal.
#![tactic(auto)]

ghost use Rattle.std.specs.Prelude.{◌≡◌, ◌≤◌, ◌<◌, length};
ghost use Rattle.family.specs.Buffers.{least_bytes};
ghost use Rattle.finite.specs.Tests.{same};
ghost use Rattle.refusals.specs.Numbers.{refused};
ghost use Rattle.reply.specs.Replies.{longest_sheet};
ghost use Rattle.reply_newick.specs.Replies.{longest_text, Replied};

use answer::Answer;
use refusals::Refusal;

// The room for a tree that is read: one byte more than the longest has that is taken, so that a longer one is noticed. (A sheet is read into reply::SHEET.)
pub const TREE: usize = newick::LONGEST + 1;

// How many bytes were written, and whether the tree is outside the grammar and ends in a line feed, which a person who wrote it with an editor seldom sees.
#[derive(Clone, Copy)]
pub struct Reply {
    pub bytes: usize,
    pub line_feed: bool,
}

// Whether an answer is the refusal of a text that is outside the grammar. (By its number: where `matches!` answers no, nothing is told of the refusal.)
fn is_outside(answer: Answer) -> bool
    ensures { result ≡ same (refused answer) 14 }
{
    match answer {
        Ok(_) => false,
        Err(refusal) => refusal.number() == Refusal::OutsideGrammar.number(),
    }
}

// Writes the report of the sheet and the tree that are read into two texts, or the line of their refusal. Both are lent whole, with the counts beside them, as
// in crate reply.
pub fn reply_newick(
    sheet: &[u8],
    sheet_bytes: usize,
    tree: &[u8],
    tree_bytes: usize,
    out: &mut [u8],
) -> Reply
    requires sheet { (longest_sheet < length sheet.now) × (sheet_bytes ≤ length sheet.now) }
    requires tree { (longest_text < length tree.now) × (tree_bytes ≤ length tree.now) }
    requires out { length out.old ≡ least_bytes }
    ensures { Replied sheet.now sheet_bytes tree.now tree_bytes out.old out.new result }
{
    let mut scratch = [0; score::LEAST_WORDS];
    let text = &tree[..tree_bytes];
    let answer = score_newick::score_newick(&sheet[..sheet_bytes], text, out, &mut scratch);
    let outside = is_outside(answer);
    Reply {
        bytes: reply::write_answer(out, answer),
        line_feed: outside && text.ends_with(b"\n"),
    }
}
