// The call that scores a sheet without gene lines and a gene tree as Newick text: the refusals in the order of checking, then the report and the table of the
// whole network. (Result and scratch stay two parameters, as in crate score.)
#![tactic(auto)]

ghost use Rattle.std.specs.Prelude.{length};
ghost use Rattle.score_newick.specs.Outcome.{Promise};
ghost use Rattle.score_newick.specs.inner.Stages.{HeaderRead, Ready, OutcomeBy, OutcomeOf};

use answer::Answer;
use layout::Header;
use layout::lines::Lines;
use layout::networks::{PartedNetwork, SoundNetwork};
use refusals::Refusal;
use score::{LEAST_BYTES, LEAST_WORDS};
use sheet::{NO_GENES, NO_NODES};

// The verdicts of the curators, between which the genes are read from the text, and the report of a family that passes them.
// (Inlined, so that the lines stand where they are read into.)
#[tactic(auto, unfolding(finite::specs::Tables::zeros))]
#[inline(always)]
fn score_lines(lines: &mut Lines, tree: &[u8], res: &mut [u8], scratch: &mut [u32]) -> Answer
    requires { Ready lines.old (length res.old) (length scratch.old) }
    ensures { OutcomeBy lines.old tree.now res.old res.new scratch.old scratch.new result }
{
    network::verdict(lines)?;
    let mut parts = components::UNFILLED;
    components::part_into(SoundNetwork { lines }, &mut parts);
    components::verdict(lines, &parts)?;
    lines.header.genes = newick::read(tree, &mut lines.genes)?;
    gene_tree::verdict(lines)?;
    let network = PartedNetwork {
        lines,
        parts: &parts,
    };
    Ok(family::write(network, res, scratch))
}

// Scores a sheet that is refused neither by 1 to 4 nor for its length. (Apart, as in crate score.)
fn score_whole(
    sheet: &[u8],
    header: Header,
    tree: &[u8],
    res: &mut [u8],
    scratch: &mut [u32],
) -> Answer
    requires { HeaderRead sheet.now header (length res.old) (length scratch.old) }
    ensures { OutcomeOf sheet.now tree.now res.old res.new scratch.old scratch.new result }
{
    let mut lines = Lines {
        header,
        nodes: NO_NODES,
        genes: NO_GENES,
    };
    sheet::read_into(sheet, &mut lines)?;
    score_lines(&mut lines, tree, res, scratch)
}

// Scores a sheet and a tree: a report in the result and the table of the whole network in the scratch, or a refusal that touches neither.
pub fn score_newick(sheet: &[u8], tree: &[u8], res: &mut [u8], scratch: &mut [u32]) -> Answer
    ensures { Promise sheet.now tree.now res.old res.new scratch.old scratch.new result }
{
    if scratch.len() < LEAST_WORDS {
        return Err(Refusal::ShortScratch);
    }
    if res.len() < LEAST_BYTES {
        return Err(Refusal::ShortResult);
    }
    let header = sheet::read_header(sheet)?;
    if header.genes != 1 {
        return Err(Refusal::BeyondLimits);
    }
    let bare = Header { genes: 0, ..header };
    if !sheet::is_whole(sheet, bare) {
        return Err(Refusal::BadLines);
    }
    score_whole(sheet, bare, tree, res, scratch)
}
