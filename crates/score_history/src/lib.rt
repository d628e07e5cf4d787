// The call that scores a sheet and shows the history: the refusals in the order of checking, then the report, the lines of the history behind it, and the table
// of the whole network. (Result and scratch stay two parameters, as in crate score.)
#![tactic(auto)]

ghost use Rattle.std.specs.Prelude.{length};
ghost use Rattle.family.specs.inner.Stages.{contents_by, Overwritten};
ghost use Rattle.score.specs.inner.Stages.{HeaderRead, Ready, OutcomeBy, OutcomeOf};
ghost use Rattle.score_history.specs.Buffers.{least_bytes};
ghost use Rattle.score_history.specs.Outcome.{bytes_in, Promise};
ghost use Rattle.score_history.specs.inner.Stages.{Spacious};

use answer::Answer;
use layout::Header;
use layout::lines::Lines;
use layout::networks::{PartedNetwork, SoundNetwork};
use sheet::{NO_GENES, NO_NODES};

// The least result, in bytes. (The least scratch is the plain call's.)
pub const LEAST_BYTES: usize = 600_000;

// Writes the report and the table and, behind the report, the lines of the history.
#[tactic(auto, unfolding(finite::specs::Tables::zeros))]
fn write(network: PartedNetwork, res: &mut [u8], scratch: &mut [u32]) -> usize
    requires { Spacious network.lines.now (length res.old) (length scratch.old) }
    ensures { Overwritten (contents_by network.entry.lines.now) (bytes_in (contents_by network.entry.lines.now)) res.old res.new scratch.old scratch.new result }
{
    let mut genes = gene_tree::UNFILLED;
    gene_tree::build_into(network.lines, &mut genes);
    let source = whole_network::source_of(network.lines, &genes);
    let bytes = family::write_from(network, &source, res, scratch);
    history_lines::append(&source, scratch, res, bytes)
}

// The verdicts of the curators, and what is written of a family that passes them.
#[tactic(auto, unfolding(finite::specs::Tables::zeros))]
fn score_lines(lines: &Lines, res: &mut [u8], scratch: &mut [u32]) -> Answer
    requires { Ready least_bytes lines.now (length res.old) (length scratch.old) }
    ensures { OutcomeBy bytes_in lines.now res.old res.new scratch.old scratch.new result }
{
    network::verdict(lines)?;
    let mut parts = components::UNFILLED;
    components::part_into(SoundNetwork { lines }, &mut parts);
    components::verdict(lines, &parts)?;
    gene_tree::verdict(lines)?;
    let network = PartedNetwork {
        lines,
        parts: &parts,
    };
    Ok(write(network, res, scratch))
}

// Scores a sheet that is refused neither by 1 to 4 nor for its length. (Apart, as in crate score.)
fn score_whole(sheet: &[u8], header: Header, res: &mut [u8], scratch: &mut [u32]) -> Answer
    requires { HeaderRead least_bytes sheet.now header (length res.old) (length scratch.old) }
    ensures { OutcomeOf least_bytes bytes_in sheet.now res.old res.new scratch.old scratch.new result }
{
    let mut lines = Lines {
        header,
        nodes: NO_NODES,
        genes: NO_GENES,
    };
    sheet::read_into(sheet, &mut lines)?;
    score_lines(&lines, res, scratch)
}

// Scores a sheet: a report and the history in the result and the table of the whole network in the scratch, or a refusal that touches neither.
pub fn score_history(sheet: &[u8], res: &mut [u8], scratch: &mut [u32]) -> Answer
    ensures { Promise sheet.now res.old res.new scratch.old scratch.new result }
{
    let header = score::read_header(sheet, res.len(), scratch.len(), LEAST_BYTES)?;
    score_whole(sheet, header, res, scratch)
}
