// The arcs of a network as the whole-network cost takes them: of each node its first and second child by principal arcs and its child by a secondary arc,
// 0 for none, and the nodes in an order in which each comes after its parents.
#![tactic(auto)]

ghost use Rattle.std.specs.Prelude.{◌≡◌, ◌≤◌};
ghost use Rattle.finite.specs.Tables.{at};
ghost use Rattle.topology.specs.Networks.{Network};
ghost use Rattle.layout.specs.Lines.{nodes_of, network_of};
ghost use Rattle.arcs.specs.inner.Arcs.{leaving, leaving_in, blank, Ordered, Laid};
ghost use Rattle.arcs.specs.inner.Walks.{place, Walked, Due, Visited};

use layout::lines::Lines;
use layout::networks::SoundNetwork;
use tables::{Column, ZEROS, next_children};

#[derive(Clone, Copy)]
pub struct Arcs {
    // The node at each place; and of each node those that its arcs lead to, 0 for none as for a parent.
    pub order: Column,
    pub first: Column,
    pub second: Column,
    pub other: Column,
}

// A table of arcs before it is filled.
pub const UNFILLED: Arcs = Arcs {
    order: ZEROS,
    first: ZEROS,
    second: ZEROS,
    other: ZEROS,
};

// The arcs out of a node, by the nodes that they lead to: none, at a leaf of a species; one principal; two principal; a principal and a secondary one.
#[derive(Clone, Copy)]
pub enum Out {
    Leaf(usize),
    One(usize),
    Two(usize, usize),
    Mixed(usize, usize),
}

impl Arcs {
    // The arcs out of node v.
    pub fn out(&self, lines: &Lines, v: usize) -> Out
        requires { v ≤ 127 }
        ensures { leaving result ≡ leaving_in lines.now.nodes self.now v }
    {
        let x = self.first[v] as usize;
        if x == 0 {
            return Out::Leaf(lines.nodes.species[v] as usize);
        }
        let y = self.second[v] as usize;
        if y != 0 {
            return Out::Two(x, y);
        }
        let z = self.other[v] as usize;
        if z != 0 {
            return Out::Mixed(x, z);
        }
        Out::One(x)
    }
}

// The walk that puts the nodes in order: who stands at each place, how many stand, and where each node stands, 0 for not yet
// (a number as in the laws; an Option would add a test and a conversion where it is read).
#[derive(Clone, Copy)]
struct Walk {
    order: Column,
    standing: usize,
    place: Column,
}

impl Walk {
    // Node v is the next in the order, unless it stands already. Its parents stand.
    fn append(&mut self, v: usize)
        requires { (v ≤ 127) × (place self.old v ≡ 0 → self.old.standing ≤ 126) }
        ensures { (N : Network) → Walked N self.old → Due N v self.old → Visited N v self.old self.new }
    {
        if self.place[v] != 0 {
            return;
        }
        self.standing += 1;
        self.order[self.standing] = v as u32;
        self.place[v] = self.standing as u32;
    }

    // Node v comes into the order, after its parents and theirs; what is no node does not.
    fn visit(&mut self, v: usize, network: SoundNetwork)
        requires { (v ≤ network.lines.now.header.nodes) × Walked (network_of network.lines.now) self.old }
        ensures { Visited (network_of network.entry.lines.now) v self.old self.new }
    {
        if v == 0 {
            return;
        }
        if self.place[v] != 0 {
            return;
        }
        self.visit(network.lines.nodes.principal[v] as usize, network);
        self.visit(network.lines.nodes.secondary[v] as usize, network);
        self.append(v);
    }
}

// The nodes in an order in which each comes after its parents.
fn order_nodes(network: SoundNetwork) -> Column
    ensures { Ordered (network_of network.entry.lines.now) (at result) }
{
    let mut walk = Walk {
        order: ZEROS,
        standing: 0,
        place: ZEROS,
    };
    for v in 1..=network.lines.header.nodes {
        walk.visit(v, network);
    }
    walk.order
}

// The arcs of a network, into a table that is lent blank. Above zeros the next child is the lowest. (Lent, as the parts of a network are to
// `components::part_into`.)
#[inline(always)]
pub fn lay_into(network: SoundNetwork, arcs: &mut Arcs)
    requires { arcs.old ≡ blank }
    ensures { Laid (nodes_of network.entry.lines.now) arcs.new }
{
    let n = network.lines.header.nodes;
    let nodes = &network.lines.nodes;
    arcs.order = order_nodes(network);
    next_children(n, &nodes.principal, &ZEROS, &mut arcs.first);
    next_children(n, &nodes.principal, &arcs.first, &mut arcs.second);
    next_children(n, &nodes.secondary, &ZEROS, &mut arcs.other);
}

// The same, returned.
#[tactic(auto, unfolding(finite::specs::Tables::zeros))]
#[inline(always)]
pub fn lay(network: SoundNetwork) -> Arcs
    ensures { Laid (nodes_of network.entry.lines.now) result }
{
    let mut arcs = UNFILLED;
    lay_into(network, &mut arcs);
    arcs
}
