// The LCA mapping of a gene tree into the tree that a network displays under a switching: one climb for each pair of children finds their parent's
// place, its event, and the transfers and losses on both ways.
#![tactic(auto)]

ghost use Rattle.std.specs.Prelude.{◌≡◌, ℕ, ◌-◌, ◌≤◌};
ghost use Rattle.layout.specs.Events.{number};
ghost use Rattle.layout.specs.Headers.{costs};
ghost use Rattle.layout.specs.inner.Tree.{up as up_in};
ghost use Rattle.layout.specs.inner.Genes.{left as left_in, leaf as leaf_in, gene_tree};
ghost use Rattle.layout.specs.inner.Results.{place as place_in, blank};
ghost use Rattle.displayed.specs.Displayed.{NodeOf};
ghost use Rattle.mapping.specs.inner.Climbs.{fork_in, Light, starting, climbed_by, Meeting};
ghost use Rattle.mapping.specs.inner.Pairs.{sent_by, event_by, Passable, passed_by, Paired};
ghost use Rattle.mapping.specs.inner.Evaluation.{Seats, seated_by, sent_to, noted_by, Room, raised_by, Upto, Counted, total_of, score_of, LeavesUpto, Lent, Evaluated};
ghost use Rattle.mapping.specs.inner.Seated.{displayed_in, genes_in};

pub mod seated;

use layout::Header;
use layout::events::Event;
use layout::genes::Genes;
use layout::results::Results;
use layout::tree::Tree;
use seated::SeatedGenes;

// A way, climbed from its lower end: the transfers, the losses of a gene that passes every node above its lower end, and the arc climbed last, by its
// lower end, 0 where none was, for which the tree has zeros, so that nothing asks.
#[derive(Clone, Copy, Default)]
pub struct Way {
    pub transfers: u32,
    pub losses: u32,
    pub last: usize,
}

// A climber: where it stands, the rank of that node, and the way that it has climbed.
#[derive(Clone, Copy)]
pub struct Climber {
    pub at: usize,
    pub rank: u32,
    pub way: Way,
}

// Where two climbers meet, and their ways.
#[derive(Clone, Copy)]
pub struct Met {
    pub node: usize,
    pub left: Way,
    pub right: Way,
}

// The transfers and losses on a gene's way. (No part of `Way`, whose losses count the node at its upper end too, which a gene
// may not pass; `Placed` has the two among the four numbers of a gene's line.)
#[derive(Clone, Copy)]
pub struct Steps {
    pub transfers: u32,
    pub losses: u32,
}

// Where a gene sits, its event, and its children's ways.
#[derive(Clone, Copy)]
pub struct Pair {
    pub node: usize,
    pub event: Event,
    pub left: Steps,
    pub right: Steps,
}

// The events of a gene tree under a switching, and their cost.
#[derive(Clone, Copy, Default)]
pub struct Score {
    pub duplications: u32,
    pub transfers: u32,
    pub losses: u32,
    pub cost: u32,
}

// 1 where coming down the arc into c from a node passed gives up another arc.
// (Half the arcs would be one instruction less of thirteen in a climb, and every caller would have to be told that they are at most 2.)
#[tactic(auto, unfolding(crate::specs::inner::Climbs::fork_in))]
fn mark(t: &Tree, c: usize) -> u32
    requires { (c ≤ 127) × (up_in t.now c ≤ 127) }
    ensures { (result ≡ fork_in t.now (up_in t.now c)) × (result ≤ 1) }
{
    tables::one_if(t.arcs[t.up[c] as usize], 2)
}

// A climber that has climbed no arc yet.
#[tactic(auto, unfolding(crate::specs::inner::Climbs::starting))]
fn starting(t: &Tree, x: usize) -> Climber
    requires { x ≤ 127 }
    ensures { result ≡ starting t.now x }
{
    Climber {
        at: x,
        rank: t.rank[x],
        way: Way::default(),
    }
}

// The climber once it has climbed the arc into the node where it stands.
#[tactic(auto, unfolding(crate::specs::inner::Climbs::climbed_by))]
fn climb(t: &Tree, c: Climber) -> Climber
    requires { (c.at ≤ 127) × (up_in t.now c.at ≤ 127) × Light c.way }
    ensures { result ≡ climbed_by t.now c }
{
    let p = t.up[c.at] as usize;
    Climber {
        at: p,
        rank: t.rank[p],
        way: Way {
            transfers: c.way.transfers + u32::from(t.lateral[c.at]),
            losses: c.way.losses + mark(t, c.at),
            last: c.at,
        },
    }
}

// Whether one of the two arcs is secondary.
#[tactic(auto, unfolding(crate::specs::inner::Pairs::sent_by))]
fn sends(t: &Tree, c: usize, d: usize) -> bool
    requires { (c ≤ 127) × (d ≤ 127) }
    ensures { result ≡ sent_by t.now c d }
{
    t.lateral[c] || t.lateral[d]
}

// The event of a gene at b whose children sit at x and y: duplication where one sits at b, else transfer where an arc that they leave by is secondary.
#[tactic(auto, using(finite::proofs::Tests::test_laws), unfolding(crate::specs::inner::Pairs::event_by))]
fn event(sent: bool, b: usize, x: usize, y: usize) -> Event
    ensures { number result ≡ event_by sent b x y }
{
    if x == b || y == b {
        Event::Duplication
    } else if sent {
        Event::Transfer
    } else {
        Event::Speciation
    }
}

// The transfers and losses on the way of a child: below a gene that is no duplication that gene's node is not passed.
#[tactic(auto, using(finite::proofs::Tests::test_laws), unfolding(crate::specs::inner::Pairs::passed_by))]
fn steps_of(t: &Tree, event: Event, w: Way) -> Steps
    requires { Passable t.now event w }
    ensures { result ≡ passed_by t.now event w }
{
    let passed = if event == Event::Duplication {
        0
    } else {
        mark(t, w.last)
    };
    Steps {
        transfers: w.transfers,
        losses: w.losses - passed,
    }
}

// One pair more: the event chooses which count is raised and what is charged at the gene; what is on the ways is counted there. (A match with an arm for
// each event is a form that the rules name.)
#[tactic(auto, unfolding(crate::specs::inner::Evaluation::raised_by, finite::specs::Tests::same))]
fn raise(h: Header, s: Score, p: Pair) -> Score
    requires { Room h s p }
    ensures { result ≡ raised_by h s p }
{
    let mut r = s;
    r.transfers += p.left.transfers + p.right.transfers;
    r.losses += p.left.losses + p.right.losses;
    match p.event {
        Event::LeafGene => r,
        Event::Speciation => r,
        Event::Duplication => {
            r.duplications += 1;
            r.cost += h.duplication;
            r
        }
        Event::Transfer => r,
    }
}

// Notes where gene k sits, and its event.
#[tactic(auto, unfolding(crate::specs::inner::Evaluation::seated_by))]
fn seat(r: &mut Results, k: usize, node: usize, event: Event)
    requires { (k ≤ 127) × (node ≤ 127) }
    ensures { r.new ≡ seated_by r.old k node event }
{
    let gene = &mut r[k];
    gene.place = node as u32;
    gene.event = event;
}

// Notes the transfers and losses on the way of gene k.
#[tactic(auto, unfolding(crate::specs::inner::Evaluation::sent_to))]
fn send(r: &mut Results, k: usize, w: Steps)
    requires { k ≤ 127 }
    ensures { r.new ≡ sent_to r.old k w }
{
    let gene = &mut r[k];
    gene.transfers = w.transfers;
    gene.losses = w.losses;
}

// With what the transfers and losses cost.
#[tactic(auto, using(crate::proofs::Products::transfers_fit, crate::proofs::Products::losses_fit), unfolding(crate::specs::inner::Evaluation::total_of))]
fn total(h: Header, s: Score) -> Score
    requires { Counted h s }
    ensures { result ≡ total_of h s }
{
    let mut r = s;
    r.cost += h.transfer * s.transfers + h.loss * s.losses;
    r
}

// Gene k, where it is a leaf gene, is seated.
fn seat_leaf(g: &Genes, r: &mut Results, k: usize)
    requires { (1 ≤ k) × (k ≤ 127) × (left_in g.now k ≡ 0 → leaf_in g.now k ≤ 127) × LeavesUpto g.now (k - 1) r.old }
    ensures { LeavesUpto g.now k r.new }
{
    if g.left[k] == 0 {
        seat(r, k, g.leaf[k] as usize, Event::LeafGene);
    }
}

// A leaf gene sits at its leaf and has the event of a leaf gene under every switching: noted once, before the first. (Into results that are lent: see
// `search::Work`.)
pub fn seat_leaves(m: usize, g: &Genes, r: &mut Results)
    requires { (m ≤ 127) × ((k : ℕ) → 1 ≤ k → k ≤ m → left_in g.now k ≡ 0 → leaf_in g.now k ≤ 127) × (r.old ≡ blank) }
    ensures { Lent (gene_tree m g.now) r.new }
{
    for k in 1..=m {
        seat_leaf(g, r, k);
    }
}

// (By value: lent, each inner gene costs an instruction more, and the search of a wide network takes 3.5 % longer.)
impl SeatedGenes<'_> {
    // The lowest node from which x and y are reached along on arcs, and the ways down to them: the climber that stands lower climbs.
    // (A `while`: two climbs that wait for one another count nothing and are no one iterator.)
    #[tactic(auto, unfolding(crate::specs::inner::Climbs::tree_of, displayed::specs::inner::Tabled::tree_in))]
    fn meet(self, x: usize, y: usize) -> Met
        requires { NodeOf (displayed_in self) x × NodeOf (displayed_in self) y }
        ensures { Meeting (displayed_in self.entry) x y result }
    {
        let mut left = starting(self.tree, x);
        let mut right = starting(self.tree, y);
        while left.at != right.at {
            if right.rank <= left.rank {
                left = climb(self.tree, left);
            } else {
                right = climb(self.tree, right);
            }
        }
        Met {
            node: left.at,
            left: left.way,
            right: right.way,
        }
    }

    // A gene whose children sit at x and y.
    fn pair_of(self, x: usize, y: usize) -> Pair
        requires { NodeOf (displayed_in self) x × NodeOf (displayed_in self) y }
        ensures { Paired (displayed_in self.entry) x y result }
    {
        let Met { node, left, right } = self.meet(x, y);
        let event = event(sends(self.tree, left.last, right.last), node, x, y);
        Pair {
            node,
            event,
            left: steps_of(self.tree, event, left),
            right: steps_of(self.tree, event, right),
        }
    }

    // An inner gene k with the children a and b, whose places are known.
    fn inner(self, r: &mut Results, k: usize, a: usize, b: usize) -> Pair
        requires { Seats self.header.nodes self.tree.now r.old a b × (k ≤ 127) × (a ≤ 127) × (b ≤ 127) }
        ensures paired { Paired (displayed_in self.entry) (place_in r.old a) (place_in r.old b) result }
        ensures results { r.new ≡ noted_by r.old k a b result }
    {
        let p = self.pair_of(r[a].place as usize, r[b].place as usize);
        seat(r, k, p.node, p.event);
        send(r, a, p.left);
        send(r, b, p.right);
        p
    }

    // Gene k, the genes of higher number being done.
    fn gene(self, r: &mut Results, k: usize, s: Score) -> Score
        requires gene { (1 ≤ k) × (k ≤ self.header.genes) }
        requires upto { Upto (displayed_in self) (genes_in self) (costs self.header) k r.old s }
        ensures { Upto (displayed_in self.entry) (genes_in self.entry) (costs self.entry.header) (k - 1) r.new result }
    {
        let a = self.genes.left[k] as usize;
        if a == 0 {
            return s;
        }
        let b = self.genes.right[k] as usize;
        let p = self.inner(r, k, a, b);
        raise(self.header, s, p)
    }

    // Every gene's place, event, transfers and losses, and the score, children before their parents.
    pub fn evaluate(self, r: &mut Results) -> Score
        requires { Lent (genes_in self) r.old }
        ensures score { result ≡ score_of (displayed_in self.entry) (genes_in self.entry) (costs self.entry.header) }
        ensures evaluated { Evaluated (displayed_in self.entry) (genes_in self.entry) r.new }
    {
        let mut s = Score::default();
        for k in (1..=self.header.genes).rev() {
            s = self.gene(r, k, s);
        }
        total(self.header, s)
    }
}
