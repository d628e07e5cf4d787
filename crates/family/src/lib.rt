// A family that no refusal applies to, its lines read and its components known: the search, the table of the whole network and the report.
#![tactic(auto)]

ghost use Rattle.std.specs.Prelude.{◌≡◌, length};
ghost use Rattle.family.specs.inner.Stages.{contents_by, Sized, Passed, totals_by, SourceOf, LentOf, Written};

use layout::choices::Choices;
use layout::networks::{PartedNetwork, SoundNetwork};
use layout::results::UNPLACED;
use layout::tree::Tree;
use report::{Tabled, Totals};
use search::given::Given;
use search::{Found, Work};
use tables::{ENTRIES, UNSET, ZEROS, count_some};
use whole_network::lent::LentSource;
use whole_network::source::Source;

// The numbers of the report's first two lines.
fn totals(network: PartedNetwork, found: Found, whole: u32) -> Totals
    ensures { result ≡ totals_by network.entry.lines.now network.entry.parts.now found whole }
{
    let h = network.lines.header;
    let score = found.score;
    Totals {
        cost: score.cost,
        duplications: score.duplications,
        transfers: score.transfers,
        losses: score.losses,
        trials: found.trials,
        whole,
        nodes: h.nodes as u32,
        genes: h.genes as u32,
        reticulations: count_some(h.nodes, &network.lines.nodes.secondary),
        components: count_some(h.nodes, &network.parts.reticulation_count),
    }
}

// Searches, fills the table of the whole network and writes the report of a family that no refusal applies to, from its genes and arcs; returns the bytes of
// the report. (Inlined, as `sheet::read_lines`: the tables of the search share their room with those of the lines.)
#[inline(always)]
fn write_with(
    network: PartedNetwork,
    source: LentSource,
    res: &mut [u8],
    scratch: &mut [u32],
) -> usize
    requires { Sized network.lines.now.header (length res.old) (length scratch.old) × Passed (contents_by network.lines.now) × LentOf network.lines.now source }
    ensures { Written (contents_by network.entry.lines.now) res.old res.new scratch.old scratch.new result }
{
    let given = Given {
        network,
        genes: source.genes,
    };
    let mut work = Work {
        choices: Choices {
            setting: ZEROS,
            best: ZEROS,
        },
        tree: Tree {
            up: ZEROS,
            lateral: UNSET,
            rank: ZEROS,
            arcs: ZEROS,
        },
        results: [UNPLACED; ENTRIES],
    };
    let found = given.run(&mut work);
    let whole = source.fill(scratch);
    let t = totals(network, found, whole);
    let tabled = Tabled {
        lines: network.lines,
        tree: &work.tree,
        parts: network.parts,
        results: &work.results,
    };
    report::write_report(res, t, &tabled)
}

// The same, from a source that holds its arcs.
#[inline(always)]
pub fn write_from(
    network: PartedNetwork,
    source: &Source,
    res: &mut [u8],
    scratch: &mut [u32],
) -> usize
    requires { Sized network.lines.now.header (length res.old) (length scratch.old) × Passed (contents_by network.lines.now) × SourceOf network.lines.now source.now }
    ensures { Written (contents_by network.entry.lines.now) res.old res.new scratch.old scratch.new result }
{
    let lent = LentSource {
        lines: source.lines,
        genes: source.genes,
        arcs: &source.arcs,
    };
    write_with(network, lent, res, scratch)
}

// The same, when nothing else asks for the genes and the arcs.
#[tactic(auto, unfolding(finite::specs::Tables::zeros))]
#[inline(always)]
pub fn write(network: PartedNetwork, res: &mut [u8], scratch: &mut [u32]) -> usize
    requires { Sized network.lines.now.header (length res.old) (length scratch.old) × Passed (contents_by network.lines.now) }
    ensures { Written (contents_by network.entry.lines.now) res.old res.new scratch.old scratch.new result }
{
    let mut genes = gene_tree::UNFILLED;
    gene_tree::build_into(network.lines, &mut genes);
    let mut arcs = arcs::UNFILLED;
    arcs::lay_into(
        SoundNetwork {
            lines: network.lines,
        },
        &mut arcs,
    );
    let source = LentSource {
        lines: network.lines,
        genes: &genes,
        arcs: &arcs,
    };
    write_with(network, source, res, scratch)
}
