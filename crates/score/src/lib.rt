// The call that scores a family sheet: the refusals in the order of checking, then the report and the table of the whole network. (Result and scratch stay
// two parameters from call to call, as C lends them and as the promise names them.)
#![tactic(auto)]

ghost use Rattle.std.specs.Prelude.{length};
ghost use Rattle.family.specs.Buffers.{least_bytes};
ghost use Rattle.family.specs.Reports.{report_in};
ghost use Rattle.score.specs.Outcome.{Promise};
ghost use Rattle.score.specs.inner.Stages.{HeaderRead, HeaderBy, ReadBy, Ready, OutcomeBy, OutcomeOf};

use answer::Answer;
use layout::Header;
use layout::lines::Lines;
use layout::networks::{PartedNetwork, SoundNetwork};
use refusals::Refusal;
use sheet::{NO_GENES, NO_NODES};

// The least scratch, in words, and the least result, in bytes.
pub const LEAST_WORDS: usize = 16129;

pub const LEAST_BYTES: usize = 5952;

// The header of a sheet that neither 1 to 4 nor the length rule of 5 refuses, of a call with buffers of so many bytes and words, which asks for so many bytes
// at least. (Inlined, as several calls ask it.)
#[inline(always)]
pub fn read_header(
    sheet: &[u8],
    bytes: usize,
    words: usize,
    least_bytes: usize,
) -> Result<Header, Refusal>
    ensures { HeaderBy least_bytes sheet.now bytes words result }
{
    if words < LEAST_WORDS {
        return Err(Refusal::ShortScratch);
    }
    if bytes < least_bytes {
        return Err(Refusal::ShortResult);
    }
    let header = sheet::read_header(sheet)?;
    if !sheet::is_whole(sheet, header) {
        return Err(Refusal::BadLines);
    }
    Ok(header)
}

// The lines of a sheet that 1 to 5 do not refuse, of such a call. (For who wants them by value: the calls have them read into their own.)
#[inline(always)]
pub fn read(sheet: &[u8], bytes: usize, words: usize, least_bytes: usize) -> Result<Lines, Refusal>
    ensures { ReadBy least_bytes sheet.now bytes words result }
{
    let header = read_header(sheet, bytes, words, least_bytes)?;
    sheet::read_lines(sheet, header)
}

// The verdicts of the curators, and the report of a family that passes them. (Apart from the reading of the text, since its outcome is told by the lines.)
#[tactic(auto, unfolding(finite::specs::Tables::zeros))]
fn score_lines(lines: &Lines, res: &mut [u8], scratch: &mut [u32]) -> Answer
    requires { Ready least_bytes lines.now (length res.old) (length scratch.old) }
    ensures { OutcomeBy report_in lines.now res.old res.new scratch.old scratch.new result }
{
    network::verdict(lines)?;
    let mut parts = components::UNFILLED;
    components::part_into(SoundNetwork { lines }, &mut parts);
    components::verdict(lines, &parts)?;
    gene_tree::verdict(lines)?;
    let network = PartedNetwork {
        lines,
        parts: &parts,
    };
    Ok(family::write(network, res, scratch))
}

// Scores a sheet that is refused neither by 1 to 4 nor for its length. (A function of its own: it clears its tables where it begins, and a sheet that is refused
// before costs no tables.)
fn score_whole(sheet: &[u8], header: Header, res: &mut [u8], scratch: &mut [u32]) -> Answer
    requires { HeaderRead least_bytes sheet.now header (length res.old) (length scratch.old) }
    ensures { OutcomeOf least_bytes report_in sheet.now res.old res.new scratch.old scratch.new result }
{
    let mut lines = Lines {
        header,
        nodes: NO_NODES,
        genes: NO_GENES,
    };
    sheet::read_into(sheet, &mut lines)?;
    score_lines(&lines, res, scratch)
}

// Scores a sheet: a report in the result and the table of the whole network in the scratch, or a refusal that touches neither.
pub fn score(sheet: &[u8], res: &mut [u8], scratch: &mut [u32]) -> Answer
    ensures { Promise sheet.now res.old res.new scratch.old scratch.new result }
{
    let header = read_header(sheet, res.len(), scratch.len(), LEAST_BYTES)?;
    score_whole(sheet, header, res, scratch)
}
