// The tree that a network displays, kept for one switching after another: single reticulations are turned, so that a trial of the search fills no table.
#![tactic(auto)]

ghost use Rattle.std.specs.Prelude.{◌≡◌, ℕ, ◌≤◌, ◌<◌, ◌-◌};
ghost use Rattle.finite.specs.Tables.{at};
ghost use Rattle.topology.specs.Networks.{Reticulation};
ghost use Rattle.topology.specs.Switchings.{all_principal};
ghost use Rattle.topology.specs.Components.{reticulation_count};
ghost use Rattle.layout.specs.Lines.{network_of};
ghost use Rattle.layout.specs.inner.Tree.{blank, Held};
ghost use Rattle.optimum.specs.Optimum.{assembled};
ghost use Rattle.switching.specs.inner.Settings.{bit_of};
ghost use Rattle.switching.specs.inner.Turning.{parent_taken, arc_moved, Turns, SomeHeld, TurnedTo};

use layout::lines::Lines;
use layout::networks::PartedNetwork;
use layout::tree::Tree;
use tables::Column;

// The bit, of a setting's k bits, of the reticulation with j lower-numbered ones in its component; the highest bit is the lowest-numbered one's. (By shift and
// mask, a form that the rules name.)
pub fn bit(x: u32, k: u32, j: u32) -> u32
    requires { (j < k) × (k ≤ 8) }
    ensures { result ≡ bit_of x k j }
{
    (x >> (k - 1 - j)) & 1
}

// The tree of the switching that has every reticulation on principal. (Into a tree that is lent: see `search::Work`. The parents are filled in and not
// copied: nothing says that the lines hold 0 past n. Inlined, as `Given::run` of crate `search`.)
#[inline(always)]
pub fn start(network: PartedNetwork, t: &mut Tree)
    requires { t.old ≡ blank }
    ensures { Held (network_of network.entry.lines.now) all_principal t.new }
{
    let PartedNetwork { lines, parts } = network;
    let n = lines.header.nodes;
    tables::fill(n, |v| lines.nodes.principal[v], &mut t.up);
    t.rank = parts.rank;
    tables::child_counts(n, &lines.nodes.principal, &mut t.arcs);
}

// An on arc that left p leaves q.
fn move_arc(arcs: &mut Column, p: usize, q: usize)
    requires { (p ≤ 127) × (q ≤ 127) × (1 ≤ at arcs.old p) × (at arcs.old q ≤ 127) }
    ensures { arcs.new ≡ arc_moved arcs.old p q }
{
    arcs[p] -= 1;
    arcs[q] += 1;
}

// The parent that reticulation r takes.
#[tactic(auto, unfolding(crate::specs::inner::Turning::parent_taken))]
fn parent_taken(lines: &Lines, r: usize, to_secondary: bool) -> u32
    requires { r ≤ 127 }
    ensures { result ≡ parent_taken to_secondary (at lines.now.nodes.secondary r) (at lines.now.nodes.principal r) }
{
    if to_secondary {
        lines.nodes.secondary[r]
    } else {
        lines.nodes.principal[r]
    }
}

// Turns reticulation r to its secondary or its principal parent.
fn turn(network: PartedNetwork, t: &mut Tree, r: usize, to_secondary: bool)
    requires reticulation { (1 ≤ r) × (r ≤ network.lines.now.header.nodes) × Reticulation (network_of network.lines.now) r }
    requires some_held { SomeHeld (network_of network.lines.now) t.old }
    ensures { Turns (network_of network.entry.lines.now) r to_secondary t.old t.new }
{
    if t.lateral[r] == to_secondary {
        return;
    }
    let q = parent_taken(network.lines, r, to_secondary);
    move_arc(&mut t.arcs, t.up[r] as usize, q as usize);
    t.up[r] = q;
    t.lateral[r] = to_secondary;
}

// Node r, where it is a reticulation, takes the parent that the setting of its component says.
#[tactic(auto, using(crate::proofs::Settings::top_low))]
fn turn_by_setting(network: PartedNetwork, settings: &Column, t: &mut Tree, r: usize)
    requires node { (1 ≤ r) × (r ≤ network.lines.now.header.nodes) }
    requires few { (c : ℕ) → reticulation_count (network_of network.lines.now) c ≤ 8 }
    requires turned_to { TurnedTo (network_of network.lines.now) (assembled (network_of network.lines.now) (at settings.now)) (r - 1) t.old }
    ensures { TurnedTo (network_of network.entry.lines.now) (assembled (network_of network.entry.lines.now) (at settings.now)) r t.new }
{
    let PartedNetwork { lines, parts } = network;
    if lines.nodes.secondary[r] == 0 {
        return;
    }
    let c = parts.top[r] as usize;
    let x = settings[c];
    let to_secondary = bit(x, parts.reticulation_count[c], parts.index[r]) == 1;
    turn(network, t, r, to_secondary);
}

// The tree of the switching that has at each component the setting that the column holds at its top, whatever the switching was before: the settings are
// zeros but for one component in a trial of the search, and the bests for the switching reported.
pub fn switch(network: PartedNetwork, settings: &Column, t: &mut Tree)
    requires few { (c : ℕ) → reticulation_count (network_of network.lines.now) c ≤ 8 }
    requires some_held { SomeHeld (network_of network.lines.now) t.old }
    ensures { Held (network_of network.entry.lines.now) (assembled (network_of network.entry.lines.now) (at settings.now)) t.new }
{
    for r in 1..=network.lines.header.nodes {
        turn_by_setting(network, settings, t, r);
    }
}
