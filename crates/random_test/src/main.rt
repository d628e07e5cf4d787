// Random sheets, each scored by the entry and compared with an enumeration of all settings written apart from the crates under test: its own reading of
// the sheet, its own placement, costs and components, its own spelling of the report. Every byte of the result is compared, but the whole-network cost is
// taken as reported. The counts expected are those of the independent implementation (compare/run --random-test), which makes the same sheets.
// (Thresholds of draws, indices by name and the bits of a setting are numbers, as the generator draws them: a type for each would be made where it is drawn
// and taken apart a line further down. The buffers have a fixed length, since the entry takes the least ones and leaves the rest of each as it was.)
#![tactic(auto)]

mod counts;
mod cuts;
mod displayed_trees;
mod draws;
mod enumeration;
mod families;
mod gene_trees;
mod growth;
mod lines;
mod mappings;
mod networks;
mod reports;
mod settings;
mod sheets;
mod written;

use counts::Counts;
use draws::Draws;
use enumeration::Settled;
use std::alloc::{AllocError, Global};
use std::io;
use written::{BYTE, RESULT_BYTES, SCRATCH_WORDS, WORD, Written};

const SHEETS: u32 = 10000;

// Scores a sheet, and counts what comes of it.
fn try_sheet(alloc: Global, counts: &mut Counts, sheet: &[u8]) -> Result<(), AllocError> {
    let mut result = [BYTE; RESULT_BYTES];
    let mut scratch = [WORD; SCRATCH_WORDS];
    let answer = score::score(sheet, &mut result, &mut scratch);
    let written = Written {
        result: &result,
        scratch: &scratch,
    };
    match answer {
        Ok(length) => {
            let settled = Settled::find(alloc, sheet, written)?;
            counts.add_report(length, settled, written);
        }
        Err(refusal) => counts.add_refusal(refusal.number(), written),
    }
    Ok(())
}

fn try_all(alloc: Global) -> Result<Counts, AllocError> {
    let mut counts = Counts::default();
    for sheet in 1..=SHEETS {
        match families::sheet(alloc, Draws { sheet })? {
            Some(text) => try_sheet(alloc, &mut counts, text.as_slice())?,
            None => counts.add_unmade(),
        }
    }
    Ok(counts)
}

fn main(rt: HostRuntime) -> io::Result<()> {
    let counts = try_all(rt.alloc())?;
    print!(rt; "{counts}")
}
