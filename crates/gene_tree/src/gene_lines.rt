// Refusals 12 and 13, by the gene lines.
ghost use Rattle.std.specs.Prelude.{◌≡◌, ◌||◌};
ghost use Rattle.finite.specs.Tables.{zeros};
ghost use Rattle.layout.specs.Lines.{nodes_of, genes_of};
ghost use Rattle.gene_tree.specs.Refusals.{bad_parent, bad_count, refusal12, refusal13};
ghost use Rattle.gene_tree.specs.inner.Work.{ChildCounts};

use super::species::Species;
use layout::lines::Lines;
use tables::{Column, child_counts};

// 12: of gene g with the parent p.
#[tactic(auto, unfolding(crate::specs::Refusals::bad_parent, finite::specs::Tests::same, finite::specs::Tests::under))]
fn bad_parent(g: usize, p: usize) -> bool
    ensures { result ≡ bad_parent g p }
{
    if g == 1 { p != 0 } else { p == 0 || p >= g }
}

// 12: of a gene with k children.
#[tactic(auto, unfolding(crate::specs::Refusals::bad_count, finite::specs::Tests::same))]
fn bad_count(k: u32) -> bool
    ensures { result ≡ bad_count k }
{
    k != 0 && k != 2
}

// 12: of gene g with the parent p and k children.
fn bad_gene(g: usize, p: usize, k: u32) -> bool
    ensures { result ≡ (bad_parent g p || bad_count k) }
{
    bad_parent(g, p) || bad_count(k)
}

// How many children each gene has, into a column that is lent as zeros.
#[tactic(auto, using(crate::proofs::Filling::counts_noted), unfolding(finite::specs::Tables::zeros))]
pub fn note_counts(lines: &Lines, counts: &mut Column)
    requires { counts.old ≡ zeros }
    ensures { ChildCounts (genes_of lines.now) counts.new }
{
    child_counts(lines.header.genes, &lines.genes.parent, counts);
}

// The genes by their lines, with the number of each gene's children, and the species of the network.
#[derive(Clone, Copy)]
pub struct GeneLines<'species, 'counts> {
    pub species: Species<'species>,
    pub child_counts: &'counts Column,
    ghost counted: { ChildCounts (genes_of species.lines.now) child_counts.now },
}

impl GeneLines<'_, '_> {
    // 12: whether the genes do not form a tree.
    pub fn twelve(&self) -> bool
        ensures { result ≡ refusal12 (genes_of self.now.species.lines.now) }
    {
        let lines = self.species.lines;
        (1..lines.header.genes + 1).any(|g| bad_gene(
            g,
            lines.genes.parent[g] as usize,
            self.child_counts[g],
        ))
    }

    // 13: whether a leaf gene has no leaf of its species, or an inner gene has a species.
    pub fn thirteen(&self) -> bool
        ensures { result ≡ refusal13 (nodes_of self.now.species.lines.now) (genes_of self.now.species.lines.now) }
    {
        let lines = self.species.lines;
        (1..lines.header.genes + 1).any(|g| self
            .species
            .bad_species(self.child_counts[g], lines.genes.species[g] as usize))
    }
}
