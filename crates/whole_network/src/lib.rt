// The network as a whole: the least cost over all histories, for each gene and starting node.
#![tactic(auto)]

ghost use Rattle.std.specs.Prelude.{◌≡◌, ◌-◌, ◌*◌, ◌≤◌};
ghost use Rattle.histories.specs.Histories.{least};
ghost use Rattle.histories.specs.inner.Promise.{WholeNetwork};
ghost use Rattle.cell_costs.specs.inner.Costs.{cost_in};
ghost use Rattle.arcs.specs.inner.Arcs.{order};
ghost use Rattle.whole_network.specs.inner.Families.{AcceptedIn};
ghost use Rattle.whole_network.specs.inner.Stages.{header, family, lent_family, HasRoom, HasRoomIn, RowOf, RowIn, RowsIn, PartlyIn, KeptIn, Next};

pub mod lent;
pub mod source;

use cell_costs::Children;
use layout::genes::Genes;
use layout::lines::Lines;
use layout::networks::SoundNetwork;
use lent::LentSource;
use source::Source;

// A leaf gene of a species, or an inner gene, by where its children's rows begin.
#[derive(Clone, Copy)]
pub enum Kind {
    Tip(usize),
    Pair(usize, usize),
}

// A gene's row: where it begins, and what its words depend on. (Places in the scratch, and no slices of it: a row is written while its children's are read.
// `split_at_mut` could lend both, for these come later, but what is said of the table is said of the scratch as a whole.)
#[derive(Clone, Copy)]
pub struct Row {
    pub gene: usize,
    pub start: usize,
    pub kind: Kind,
}

// The source of the table of a sheet that no refusal applies to: its arcs are laid out. (Inlined, as `arcs::lay` and `sheet::read_lines`: the arcs stand where
// they are laid.)
#[inline(always)]
pub fn source_of<'a>(lines: &'a Lines, genes: &'a Genes) -> Source<'a>
    requires { AcceptedIn lines.now genes.now }
    ensures { (result.lines.now ≡ lines.now) × (result.genes.now ≡ genes.now) }
{
    Source {
        lines,
        genes,
        arcs: arcs::lay(SoundNetwork { lines }),
    }
}

impl Source<'_> {
    // The row of gene g.
    pub fn row(&self, g: usize) -> Row
        requires { (1 ≤ g) × (g ≤ (header self.now).genes) }
        ensures { RowOf self.now result × (result.gene ≡ g) }
    {
        let source = LentSource {
            lines: self.lines,
            genes: self.genes,
            arcs: &self.arcs,
        };
        source.row(g)
    }

    // Fills the table of least costs in the scratch, and returns the least cost over all histories of gene 1.
    pub fn fill(&self, scratch: &mut [u32]) -> u32
        requires { HasRoom self.now scratch.old }
        ensures { WholeNetwork (family self.entry.now) scratch.old scratch.new result }
    {
        let source = LentSource {
            lines: self.lines,
            genes: self.genes,
            arcs: &self.arcs,
        };
        source.fill(scratch)
    }
}

impl LentSource<'_> {
    // The row of gene g. What depends on the gene alone is read here, once for all nodes.
    #[tactic(auto, using(crate::proofs::Turns::row_low, crate::proofs::Turns::left_high, crate::proofs::Turns::right_low, crate::proofs::Turns::right_high))]
    pub fn row(&self, g: usize) -> Row
        requires { (1 ≤ g) × (g ≤ self.now.lines.now.header.genes) }
        ensures { RowIn self.now.lines.now self.now.genes.now result × (result.gene ≡ g) }
    {
        let n = self.lines.header.nodes;
        let left = self.genes.left[g] as usize;
        let kind = if left == 0 {
            Kind::Tip(self.lines.genes.species[g] as usize)
        } else {
            let right = self.genes.right[g] as usize;
            let left_start = (left - 1) * n;
            let right_start = (right - 1) * n;
            Kind::Pair(left_start, right_start)
        };
        Row {
            gene: g,
            start: (g - 1) * n,
            kind,
        }
    }

    // The least cost of a row's gene at place i of the order of the nodes.
    #[tactic(auto, using(crate::proofs::Turns::node_few))]
    fn cost(&self, row: Row, i: usize, scratch: &[u32]) -> usize
        requires { Next self.now scratch.now row i }
        ensures { cost_in result ≡ least (lent_family self.now) row.gene (order self.now.arcs.now i) }
    {
        let v = self.arcs.order[i] as usize;
        let out = self.arcs.out(self.lines, v);
        let own = &scratch[row.start..];
        match row.kind {
            Kind::Tip(species) => cell_costs::tip_cost(self.lines.header, own, species, out),
            Kind::Pair(a, b) => {
                let children = Children {
                    left: &scratch[a..],
                    right: &scratch[b..],
                };
                cell_costs::inner_cost(self.lines.header, children, own, v, out)
            }
        }
    }

    // The next word of a row.
    fn fill_word(&self, row: Row, i: usize, scratch: &mut [u32])
        requires { Next self.now scratch.old row i }
        ensures partly_in { PartlyIn self.now scratch.new row.gene (i - 1) }
        ensures kept_in { KeptIn self.now scratch.old scratch.new }
    {
        let c = self.cost(row, i, scratch);
        let v = self.arcs.order[i] as usize;
        scratch[row.start + (v - 1)] = cell_costs::clipped(c);
    }

    // The row of gene g, from the last node of the order, for arcs out lead to later ones.
    fn fill_row(&self, g: usize, scratch: &mut [u32])
        requires { HasRoomIn self.now.lines.now scratch.old × (1 ≤ g) × (g ≤ self.now.lines.now.header.genes) × RowsIn self.now scratch.old g }
        ensures rows_in { RowsIn self.now scratch.new (g - 1) }
        ensures kept_in { KeptIn self.now scratch.old scratch.new }
    {
        let row = self.row(g);
        for i in (1..=self.lines.header.nodes).rev() {
            self.fill_word(row, i, scratch);
        }
    }

    // All rows: genes from the last to the first, for children have higher numbers.
    fn fill_rows(&self, scratch: &mut [u32])
        requires { HasRoomIn self.now.lines.now scratch.old }
        ensures rows_in { RowsIn self.now scratch.new 0 }
        ensures kept_in { KeptIn self.now scratch.old scratch.new }
    {
        for g in (1..=self.lines.header.genes).rev() {
            self.fill_row(g, scratch);
        }
    }

    // Fills the table of least costs in the scratch, and returns the least cost over all histories of gene 1.
    pub fn fill(&self, scratch: &mut [u32]) -> u32
        requires { HasRoomIn self.now.lines.now scratch.old }
        ensures { WholeNetwork (lent_family self.entry.now) scratch.old scratch.new result }
    {
        self.fill_rows(scratch);
        cell_costs::least_start(self.lines.header.nodes, scratch)
    }
}
