// The calls that score, for C and for whatever links C: include/lgt_score.h declares them.
#![tactic(auto)]

ghost use Rattle.score.specs.Outcome as Plain;
ghost use Rattle.score_history.specs.Outcome as History;
ghost use Rattle.score_newick.specs.Outcome as Newick;
ghost use Rattle.score_c.specs.Exported.{Exported};

// A refusal's number; else the bytes of the report, which are never so few.
#[unsafe(no_mangle)]
pub extern "C" fn lgt_score(sheet: &[u8], res: &mut [u8], scratch: &mut [u32]) -> usize
    ensures { Exported (Plain.Promise sheet.now res.old res.new scratch.old scratch.new) result }
{
    answer::number(score::score(sheet, res, scratch))
}

// The same with the lines of the history behind the report.
#[unsafe(no_mangle)]
pub extern "C" fn lgt_score_history(sheet: &[u8], res: &mut [u8], scratch: &mut [u32]) -> usize
    ensures { Exported (History.Promise sheet.now res.old res.new scratch.old scratch.new) result }
{
    answer::number(score_history::score_history(sheet, res, scratch))
}

// A refusal's number, or the bytes of the report, of a sheet without gene lines and a gene tree as Newick text.
#[unsafe(no_mangle)]
pub extern "C" fn lgt_score_newick(
    sheet: &[u8],
    tree: &[u8],
    res: &mut [u8],
    scratch: &mut [u32],
) -> usize
    ensures { Exported (Newick.Promise sheet.now tree.now res.old res.new scratch.old scratch.new) result }
{
    answer::number(score_newick::score_newick(sheet, tree, res, scratch))
}
