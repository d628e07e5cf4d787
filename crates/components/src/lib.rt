// The components of a network (01, "Settings and placement") and refusal 11: of each node its rank and the top of its component, at a top how many
// reticulations the component has, and of a reticulation how many of its component have a lower number.
#![tactic(auto)]

mod climbs;

ghost use Rattle.std.specs.Prelude.{◌≡◌, ◌-◌, ◌≤◌, ◌<◌};
ghost use Rattle.finite.specs.Refusals.{verdict};
ghost use Rattle.finite.specs.Tables.{at};
ghost use Rattle.layout.specs.Lines.{nodes_of, network_of};
ghost use Rattle.layout.specs.inner.Parts.{Parted};
ghost use Rattle.components.specs.Refusals.{refusal11, component_refusals};
ghost use Rattle.refusals.specs.Numbers.{refused};
ghost use Rattle.components.specs.inner.Filling.{Dated, blank, rank_at, PartedTo};

use climbs::Climbs;
use layout::lines::{Lines, NodeColumns};
use layout::networks::SoundNetwork;
use layout::parts::Parts;
use refusals::Refusal;
use tables::ZEROS;

// A table of parts before it is filled.
pub const UNFILLED: Parts = Parts {
    rank: ZEROS,
    top: ZEROS,
    reticulation_count: ZEROS,
    index: ZEROS,
};

// The rank of node v.
#[tactic(auto, unfolding(crate::specs::inner::Filling::rank_at, topology::specs::Lines::rank_of, finite::specs::Tests::same))]
fn rank_of(nodes: &NodeColumns, v: usize) -> u32
    requires { (v ≤ 127) × (at nodes.now.stamp v < 1000000) }
    ensures { result ≡ rank_at nodes.now v }
{
    2 * nodes.stamp[v] + 1 + u32::from(nodes.secondary[v] != 0)
}

// Node v, where it is a reticulation, counts at its component's top; those counted there before it are its index.
fn count_node(network: SoundNetwork, parts: &mut Parts, v: usize)
    requires limits { (1 ≤ v) × (v ≤ network.lines.now.header.nodes) }
    requires parted { PartedTo (network_of network.lines.now) (v - 1) parts.old }
    ensures { PartedTo (network_of network.entry.lines.now) v parts.new }
{
    if network.lines.nodes.secondary[v] == 0 {
        return;
    }
    let c = parts.top[v] as usize;
    let k = parts.reticulation_count[c];
    parts.index[v] = k;
    parts.reticulation_count[c] = k + 1;
}

// What each component has of reticulations, and the index of each.
fn counts(network: SoundNetwork, parts: &mut Parts)
    requires { PartedTo (network_of network.lines.now) 0 parts.old }
    ensures { Parted (network_of network.entry.lines.now) parts.new }
{
    for v in 1..=network.lines.header.nodes {
        count_node(network, parts, v);
    }
}

// The parts of a network in which 6, 7 and 8 have passed, into a table that is lent blank. (Lent, for a table that a call returns is copied, inlined or not.)
#[inline(always)]
pub fn part_into(network: SoundNetwork, parts: &mut Parts)
    requires dated { Dated network.lines.now.header.nodes network.lines.now.nodes }
    requires blank { parts.old ≡ blank }
    ensures { Parted (network_of network.entry.lines.now) parts.new }
{
    tables::fill(
        network.lines.header.nodes,
        |v| rank_of(&network.lines.nodes, v),
        &mut parts.rank,
    );
    let climbs = Climbs {
        network,
        ranks: &parts.rank,
    };
    climbs.tops(&mut parts.top);
    counts(network, parts);
}

// The same, returned.
#[tactic(auto, unfolding(finite::specs::Tables::zeros))]
#[inline(always)]
pub fn part(network: SoundNetwork) -> Parts
    requires { Dated network.lines.now.header.nodes network.lines.now.nodes }
    ensures { Parted (network_of network.entry.lines.now) result }
{
    let mut parts = UNFILLED;
    part_into(network, &mut parts);
    parts
}

// 11, by the counts at the tops. (`1..n + 1` here and in other crates: an inclusive range is slower, see crate finite, proofs/Upto.)
fn crowded(lines: &Lines, parts: &Parts) -> bool
    requires { Parted (network_of lines.now) parts.now }
    ensures { result ≡ refusal11 (network_of lines.now) }
{
    (1..lines.header.nodes + 1).any(|v| 8 < parts.reticulation_count[v])
}

// The first refusal that applies to the components, which 11 alone asks. (It takes no `PartedNetwork`, for it does not ask that the network is sound.)
#[tactic(auto, using(finite::proofs::Refusals::verdict_laws), unfolding(crate::specs::Refusals::component_refusals))]
pub fn verdict(lines: &Lines, parts: &Parts) -> Result<(), Refusal>
    requires { Parted (network_of lines.now) parts.now }
    ensures { refused result ≡ verdict (component_refusals (nodes_of lines.now)) }
{
    if crowded(lines, parts) {
        return Err(Refusal::CrowdedComponent);
    }
    Ok(())
}
