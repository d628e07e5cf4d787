// The species of a network: which node bears each.
ghost use Rattle.std.specs.Prelude.{◌≡◌, ◌≤◌};
ghost use Rattle.finite.specs.Tables.{zeros};
ghost use Rattle.tables.specs.Children.{next};
ghost use Rattle.layout.specs.Lines.{nodes_of};
ghost use Rattle.gene_tree.specs.Refusals.{bearer, bad_species};
ghost use Rattle.gene_tree.specs.inner.Work.{Bearers};

use layout::lines::Lines;
use tables::{Column, ZEROS, next_children};

// The lowest node of species s, 0 where there is none, as the definitions and the table of leaves have it. (`1..n + 1`: an inclusive range takes twice as
// long, see crate finite, proofs/Upto.)
fn sought(lines: &Lines, s: usize) -> usize
    ensures { result ≡ next lines.now.header.nodes (nodes_of lines.now).species 0 s }
{
    (1..lines.header.nodes + 1)
        .find(|v| lines.nodes.species[*v] as usize == s)
        .unwrap_or(0)
}

// The lowest node of each number up to n as a species, into a column that is lent as zeros.
#[tactic(auto, using(crate::proofs::Filling::bearers_noted), unfolding(finite::specs::Tables::zeros))]
pub fn note_bearers(lines: &Lines, lowest: &mut Column)
    requires { lowest.old ≡ zeros }
    ensures { Bearers (nodes_of lines.now) lowest.new }
{
    next_children(lines.header.nodes, &lines.nodes.species, &ZEROS, lowest);
}

// The nodes by their lines, with the lowest node of each number up to n as a species. (The column is lent: one that it held would be copied with it.)
#[derive(Clone, Copy)]
pub struct Species<'a> {
    pub lines: &'a Lines,
    pub lowest: &'a Column,
    ghost noted: { Bearers (nodes_of lines.now) lowest.now },
}

impl Species<'_> {
    // The node that bears species s, 0 where none does. No species is borne by no node, though other nodes than leaves have 0 there. Species are most
    // often numbered from 1, so the bearers of the numbers up to n are looked up, and only others are sought. (As `bearers` of crate `shapes` looks up a
    // count; a count and a node have not one table.)
    #[tactic(auto, using(crate::proofs::Reading::bearer_noted, crate::proofs::Reading::bearer_sought, crate::proofs::Reading::bearer_low))]
    pub fn bearer(&self, s: usize) -> usize
        ensures { (result ≡ bearer (nodes_of self.now.lines.now) s) × (result ≤ self.now.lines.now.header.nodes) }
    {
        if s <= self.lines.header.nodes {
            return self.lowest[s] as usize;
        }
        sought(self.lines, s)
    }

    // 13: of a gene with k children, of species s.
    #[tactic(auto, unfolding(crate::specs::Refusals::bad_species, finite::specs::Tests::same))]
    pub fn bad_species(&self, k: u32, s: usize) -> bool
        ensures { result ≡ bad_species (nodes_of self.now.lines.now) k s }
    {
        if k == 0 { self.bearer(s) == 0 } else { s != 0 }
    }
}
