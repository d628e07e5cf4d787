// Refusals 8, 9 and 10: what a node is by its parents and arcs out, its species and its children.
ghost use Rattle.std.specs.Prelude.{◌≡◌, ◌≢◌, ◌≤◌};
ghost use Rattle.finite.specs.Range.{children};
ghost use Rattle.finite.specs.Tables.{at};
ghost use Rattle.layout.specs.Lines.{nodes_of};
ghost use Rattle.shapes.specs.Refusals.{reticulation_with, inner_with, leaf_with, shapeless, refusal8, refusal9, refusal10};
ghost use Rattle.shapes.specs.inner.ShortForms.{wrong_species_at, only_reticulations};
ghost use Rattle.shapes.specs.inner.Counts.{Counted};
ghost use Rattle.shapes.specs.inner.Arcs.{arcs_at};

use super::counts::Counts;
use layout::lines::Lines;
use tables::count_of;

// The arcs of a node: its parents, and how many principal arcs leave it, how many secondary ones, and how many that lead to no reticulation.
#[derive(Clone, Copy)]
struct Arcs {
    principal_parent: u32,
    secondary_parent: u32,
    principals_out: u32,
    secondaries_out: u32,
    plains_out: u32,
}

impl Arcs {
    // 8: "reticulation (two parents, one child, by a principal arc)".
    #[tactic(auto, unfolding(crate::specs::Refusals::reticulation_with, finite::specs::Tests::same))]
    fn is_reticulation(self) -> bool
        ensures { result ≡ reticulation_with self.principal_parent self.secondary_parent self.principals_out self.secondaries_out }
    {
        self.principal_parent != 0
            && self.secondary_parent != 0
            && self.principals_out == 1
            && self.secondaries_out == 0
    }

    // "inner node (no secondary parent, two arcs out, at least one principal)".
    #[tactic(auto, unfolding(crate::specs::Refusals::inner_with, finite::specs::Tests::same, finite::specs::Tests::under))]
    fn is_inner(self) -> bool
        ensures { result ≡ inner_with self.secondary_parent self.principals_out self.secondaries_out }
    {
        let out = u64::from(self.principals_out) + u64::from(self.secondaries_out);
        self.secondary_parent == 0 && out == 2 && 0 < self.principals_out
    }

    // "leaf (no secondary parent, no arc out)".
    #[tactic(auto, unfolding(crate::specs::Refusals::leaf_with, finite::specs::Tests::same))]
    fn is_leaf(self) -> bool
        ensures { result ≡ leaf_with self.secondary_parent self.principals_out self.secondaries_out }
    {
        self.secondary_parent == 0 && self.principals_out == 0 && self.secondaries_out == 0
    }

    // "None of these".
    #[tactic(auto, unfolding(crate::specs::Refusals::shapeless, finite::specs::Tests::same))]
    fn is_shapeless(self) -> bool
        ensures { result ≡ shapeless self.principal_parent self.secondary_parent self.principals_out self.secondaries_out }
    {
        !(self.is_reticulation() || self.is_inner() || self.is_leaf())
    }

    // 10: "a node has children and all are reticulations".
    #[tactic(auto, unfolding(crate::specs::inner::ShortForms::only_reticulations, finite::specs::Tests::same))]
    fn only_reticulations(self) -> bool
        ensures { result ≡ only_reticulations self.principals_out self.secondaries_out self.plains_out }
    {
        self.plains_out == 0 && (self.principals_out != 0 || self.secondaries_out != 0)
    }
}

// The lines of a sheet, with what is counted of its nodes once.
#[derive(Clone, Copy)]
pub struct Shapes<'a> {
    pub lines: &'a Lines,
    pub counts: &'a Counts,
    ghost counted: { Counted (nodes_of lines.now) counts.now },
}

impl<'a> Shapes<'a> {
    // The arcs of node v.
    fn arcs(&self, v: usize) -> Arcs
        requires { v ≤ 127 }
        ensures { result ≡ arcs_at self.now.lines.now.nodes self.now.counts.now v }
    {
        let nodes = &self.lines.nodes;
        Arcs {
            principal_parent: nodes.principal[v],
            secondary_parent: nodes.secondary[v],
            principals_out: self.counts.principals[v],
            secondaries_out: self.counts.secondaries[v],
            plains_out: self.counts.plains[v],
        }
    }

    // 8.
    pub fn eight(&self) -> bool
        ensures { result ≡ refusal8 (nodes_of self.now.lines.now) }
    {
        (1..self.lines.header.nodes + 1).any(|v| self.arcs(v).is_shapeless())
    }

    // How many nodes bear species k. Species are most often numbered from 1, so those up to n are counted once, and only others one by one.
    // (As `bearer` of crate `gene_tree` looks up a node; a count and a node have not one table.)
    #[tactic(auto, using(crate::proofs::AsRead::bearers_read))]
    fn bearers(&self, k: usize) -> u32
        requires { k ≢ 0 }
        ensures { result ≡ children self.now.lines.now.header.nodes (at self.now.lines.now.nodes.species) k }
    {
        let n = self.lines.header.nodes;
        if k <= n {
            return self.counts.bearers[k];
        }
        count_of(n, &self.lines.nodes.species, k)
    }

    // 9: of one node. Only a leaf with a species asks how many nodes have that.
    #[tactic(auto, using(crate::proofs::AsRead::wrong_other, crate::proofs::AsRead::wrong_bare, crate::proofs::AsRead::wrong_borne), unfolding(finite::specs::Tests::same))]
    fn wrong_species_at(&self, v: usize) -> bool
        requires { (1 ≤ v) × (v ≤ self.now.lines.now.header.nodes) }
        ensures { result ≡ wrong_species_at (nodes_of self.now.lines.now) v }
    {
        let k = self.lines.nodes.species[v] as usize;
        if self.arcs(v).is_leaf() {
            k == 0 || self.bearers(k) != 1
        } else {
            k != 0
        }
    }

    // 9.
    pub fn nine(&self) -> bool
        ensures { result ≡ refusal9 (nodes_of self.now.lines.now) }
    {
        (1..self.lines.header.nodes + 1).any(|v| self.wrong_species_at(v))
    }

    // 10.
    pub fn ten(&self) -> bool
        ensures { result ≡ refusal10 (nodes_of self.now.lines.now) }
    {
        (1..self.lines.header.nodes + 1).any(|v| self.arcs(v).only_reticulations())
    }
}
