// The tops of the components, by climbs in the principal tree. The climbs end because the network is sound: 6, 7 and 8 have passed.
ghost use Rattle.std.specs.Prelude.{◌≡◌, ◌-◌, ◌≤◌, length};
ghost use Rattle.finite.specs.Tables.{filled};
ghost use Rattle.topology.specs.Components.{component};
ghost use Rattle.layout.specs.Lines.{network_of};
ghost use Rattle.components.specs.inner.Ways.{Ranked, MarkedWay, MarkedWays, NonTops};

use layout::networks::SoundNetwork;
use tables::{Column, Flags, UNSET};

// A network, and a column of the ranks, by which the climbs go.
#[derive(Clone, Copy)]
pub struct Climbs<'a> {
    pub network: SoundNetwork<'a>,
    pub ranks: &'a Column,
    ghost ranked: { Ranked (network_of network.lines.now) ranks.now },
}

impl Climbs<'_> {
    // Marks the nodes on the way between x and y in the principal tree, the one where they meet left out: the climber of larger rank goes on.
    // (A `while`: two climbs that wait for one another count nothing and are no one iterator.)
    fn mark_way(self, marks: &mut Flags, x: usize, y: usize)
        requires { (x ≤ self.network.lines.now.header.nodes) × (y ≤ self.network.lines.now.header.nodes) × (length marks.old ≡ 128) }
        ensures { MarkedWay (network_of self.entry.network.lines.now) marks.old marks.new x y }
    {
        let mut a = x;
        let mut b = y;
        while a != b {
            if self.ranks[a] < self.ranks[b] {
                marks[b] = true;
                b = self.network.lines.nodes.principal[b] as usize;
            } else {
                marks[a] = true;
                a = self.network.lines.nodes.principal[a] as usize;
            }
        }
    }

    // Marks the way between node v and its secondary parent, if it has one.
    fn mark_node(self, marks: &mut Flags, v: usize)
        requires limits { (1 ≤ v) × (v ≤ self.network.lines.now.header.nodes) }
        requires marked_ways { MarkedWays (network_of self.network.lines.now) marks.old (v - 1) }
        ensures { MarkedWays (network_of self.entry.network.lines.now) marks.new v }
    {
        let s = self.network.lines.nodes.secondary[v] as usize;
        if s == 0 {
            return;
        }
        self.mark_way(marks, v, s);
    }

    // The marks of the nodes that are no tops.
    #[tactic(auto, using(crate::proofs::Ways::ways_end))]
    fn non_tops(self) -> Flags
        ensures { NonTops (network_of self.entry.network.lines.now) result }
    {
        let mut marks = UNSET;
        for v in 1..=self.network.lines.header.nodes {
            self.mark_node(&mut marks, v);
        }
        marks
    }

    // The top of v's component: the first node without a mark, going up principal arcs. (A `while`: it counts nothing, and of an iterator over
    // ancestors it would have to be shown that it ends, as of the loop.)
    fn top_of(self, marks: &Flags, v: usize) -> u32
        requires limits { (1 ≤ v) × (v ≤ self.network.lines.now.header.nodes) }
        requires marked { NonTops (network_of self.network.lines.now) marks.now }
        ensures { result ≡ component (network_of self.entry.network.lines.now) v }
    {
        let mut a = v;
        while marks[a] {
            a = self.network.lines.nodes.principal[a] as usize;
        }
        a as u32
    }

    // The top of each node's component.
    pub fn tops(self, top: &mut Column)
        ensures { top.new ≡ filled self.entry.network.lines.now.header.nodes top.old (component (network_of self.entry.network.lines.now)) }
    {
        let marks = self.non_tops();
        tables::fill(
            self.network.lines.header.nodes,
            |v| self.top_of(&marks, v),
            top,
        );
    }
}
