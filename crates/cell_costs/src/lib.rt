// One word of the table of least costs: a gene's at a node, from the words of its own row at the nodes that the arcs out lead to and of its children's
// rows there and at the node itself. A row is the words from its first on.
#![tactic(auto)]

ghost use Rattle.std.specs.Prelude.{◌≡◌, ◌+◌, ◌≤◌, length};
ghost use Rattle.layout.specs.Headers.{WithinLimits};
ghost use Rattle.histories.specs.Histories.{◌lesser◌, then, both, resting, leaf, least_over};
ghost use Rattle.histories.specs.Words.{cost_of};
ghost use Rattle.histories.specs.inner.Grades.{Leads};
ghost use Rattle.histories.specs.inner.Rows.{row, cost_at, Cell};
ghost use Rattle.arcs.specs.inner.Arcs.{leaving};
ghost use Rattle.cell_costs.specs.inner.Costs.{cost_in, left_cost, right_cost, BothCells, parted, transferring, tip_cost, inner_cost};

use arcs::Out;
use layout::Header;

// The word for no history, which the rules give: the highest, so that the least word is that of the least cost. Words are added as `usize`, and a sum from this
// word on stands for none. (As an Option no history would be the least of all, and would be told apart at each sum.)
const NO_HISTORY: u32 = u32::MAX;

// The word of a cost: the library's `try_from`, under the name by which the laws cite it.
#[tactic(auto, using(crate::proofs::Sums::clip))]
pub fn clipped(c: usize) -> u32
    ensures { cost_of result ≡ cost_in c }
{
    u32::try_from(c).unwrap_or(NO_HISTORY)
}

// An event of cost c, then the history of the gene with this row from v on.
#[tactic(auto, using(crate::proofs::Sums::then_at))]
pub fn after(row: &[u32], c: usize, v: usize) -> usize
    requires { (c ≤ 198) × Cell row.now v }
    ensures { cost_in result ≡ then c (cost_at row.now v) }
{
    c + row[v - 1] as usize
}

// "rest, if both are leaves of one species": a leaf gene at a leaf.
fn rest(gene_species: usize, node_species: usize) -> usize
    ensures { cost_in result ≡ resting gene_species (leaf node_species) }
{
    if gene_species == node_species {
        0
    } else {
        NO_HISTORY as usize
    }
}

// The rows of a gene's two children.
#[derive(Clone, Copy)]
pub struct Children<'a> {
    pub left: &'a [u32],
    pub right: &'a [u32],
}

impl Children<'_> {
    // An event of cost c, then the histories of the left child from u and of the right child from v on.
    #[tactic(auto, using(crate::proofs::Sums::both_at))]
    pub fn both(self, c: usize, u: usize, v: usize) -> usize
        requires { (c ≤ 198) × Cell self.left.now u × Cell self.right.now v }
        ensures { cost_in result ≡ both c (left_cost self.entry u) (right_cost self.entry v) }
    {
        c + self.left[u - 1] as usize + self.right[v - 1] as usize
    }

    // The children part, for a cost c: one starts at x, the other at y.
    fn parted(self, c: usize, x: usize, y: usize) -> usize
        requires { (c ≤ 99) × BothCells self x × BothCells self y }
        ensures { cost_in result ≡ parted c (left_cost self.entry) (right_cost self.entry) x y }
    {
        self.both(c, x, y).min(self.both(c, y, x))
    }

    // One of them goes along the secondary arc to z, for a cost t, while the other stays at v or takes the principal arc to x.
    fn transferred(self, t: usize, v: usize, x: usize, z: usize) -> usize
        requires { (t ≤ 99) × BothCells self v × BothCells self x × BothCells self z }
        ensures { cost_in result ≡ transferring t (left_cost self.entry) (right_cost self.entry) v x z }
    {
        self.parted(t, z, v).min(self.parted(t, z, x))
    }
}

// The gene with this row moves on along one of two arcs: to u, for a cost c, or to v, for a cost d.
#[tactic(auto, using(crate::proofs::Sums::lesser_of))]
fn onward(row: &[u32], c: usize, u: usize, d: usize, v: usize) -> usize
    requires { (c ≤ 198) × (d ≤ 198) × Cell row.now u × Cell row.now v }
    ensures { cost_in result ≡ (then c (cost_at row.now u) lesser then d (cost_at row.now v)) }
{
    after(row, c, u).min(after(row, d, v))
}

// The least cost of a leaf gene of this species, with the row g, at a node with these arcs out: it rests, or it moves on.
#[tactic(auto, unfolding(histories::specs::inner::Grades::Leads))]
pub fn tip_cost(h: Header, g: &[u32], species: usize, out: Out) -> usize
    requires { WithinLimits h × Leads (Cell g.now) (leaving out) }
    ensures { cost_in result ≡ tip_cost h.transfer h.loss species (cost_at g.now) (leaving out) }
{
    let t = h.transfer as usize;
    let l = h.loss as usize;
    match out {
        Out::Leaf(node_species) => rest(species, node_species),
        Out::One(x) => after(g, 0, x),
        Out::Two(x, y) => onward(g, l, x, l, y),
        Out::Mixed(x, z) => onward(g, t + l, z, 0, x),
    }
}

// The least cost of an inner gene with the row g, at a node v with these arcs out: both its children start there, or they part, or it moves on.
#[tactic(auto, unfolding(histories::specs::inner::Grades::Leads))]
pub fn inner_cost(h: Header, children: Children, g: &[u32], v: usize, out: Out) -> usize
    requires { WithinLimits h × Leads (Cell g.now) (leaving out) × BothCells children v × Leads (BothCells children) (leaving out) }
    ensures { cost_in result ≡ inner_cost h.duplication h.transfer h.loss (left_cost children.entry) (right_cost children.entry) (cost_at g.now) v (leaving out) }
{
    let here = children.both(h.duplication as usize, v, v);
    let t = h.transfer as usize;
    let l = h.loss as usize;
    match out {
        Out::Leaf(_) => here,
        Out::One(x) => here.min(after(g, 0, x)),
        Out::Two(x, y) => here
            .min(children.parted(0, x, y))
            .min(onward(g, l, x, l, y)),
        Out::Mixed(x, z) => here
            .min(children.transferred(t, v, x, z))
            .min(onward(g, t + l, z, 0, x)),
    }
}

// The least word of the row of gene 1.
pub fn least_start(n: usize, scratch: &[u32]) -> u32
    requires { n ≤ length scratch.now }
    ensures { cost_of result ≡ least_over n (row n scratch.now 1) }
{
    scratch[..n].iter().copied().min().unwrap_or(NO_HISTORY)
}
