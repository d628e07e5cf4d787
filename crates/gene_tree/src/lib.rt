// The gene tree of a sheet: refusals 12 and 13, and the table of each gene's children, leaf and parent.
#![tactic(auto)]

mod gene_lines;
mod species;

ghost use Rattle.std.specs.Prelude.{◌≡◌};
ghost use Rattle.finite.specs.Refusals.{verdict};
ghost use Rattle.refusals.specs.Numbers.{refused};
ghost use Rattle.layout.specs.Lines.{nodes_of, genes_of};
ghost use Rattle.layout.specs.inner.Genes.{gene_tree};
ghost use Rattle.gene_tree.specs.Refusals.{gene_refusals};
ghost use Rattle.gene_tree.specs.Genes.{gene_tree_of};
ghost use Rattle.gene_tree.specs.inner.Work.{blank};

use gene_lines::{GeneLines, note_counts};
use layout::genes::Genes;
use layout::lines::Lines;
use refusals::Refusal;
use species::{Species, note_bearers};
use tables::{ZEROS, fill, next_children};

// A table of genes before it is filled.
pub const UNFILLED: Genes = Genes {
    left: ZEROS,
    right: ZEROS,
    leaf: ZEROS,
    parent: ZEROS,
};

// The first of the gene lines' refusals that applies.
#[tactic(auto, using(finite::proofs::Refusals::verdict_laws), unfolding(crate::specs::Refusals::gene_refusals, crate::specs::Refusals::species_refusals, finite::specs::Tables::zeros))]
pub fn verdict(lines: &Lines) -> Result<(), Refusal>
    ensures { refused result ≡ verdict (gene_refusals (nodes_of lines.now) (genes_of lines.now)) }
{
    let mut lowest = ZEROS;
    note_bearers(lines, &mut lowest);
    let species = Species {
        lines,
        lowest: &lowest,
    };
    let mut counts = ZEROS;
    note_counts(lines, &mut counts);
    let genes = GeneLines {
        species,
        child_counts: &counts,
    };
    if genes.twelve() {
        return Err(Refusal::BadGeneTree);
    }
    if genes.thirteen() {
        return Err(Refusal::BadGeneSpecies);
    }
    Ok(())
}

// The gene tree of the lines, into a table that is lent blank; a leaf gene sits at the node that bears its species. (Lent, as the parts of a network are to
// `components::part_into`.)
#[tactic(auto, unfolding(finite::specs::Tables::zeros))]
#[inline(always)]
pub fn build_into(lines: &Lines, genes: &mut Genes)
    requires { genes.old ≡ blank }
    ensures { gene_tree lines.now.header.genes genes.new ≡ gene_tree_of (nodes_of lines.now) (genes_of lines.now) }
{
    let m = lines.header.genes;
    let mut lowest = ZEROS;
    note_bearers(lines, &mut lowest);
    let species = Species {
        lines,
        lowest: &lowest,
    };
    next_children(m, &lines.genes.parent, &ZEROS, &mut genes.left);
    next_children(m, &lines.genes.parent, &genes.left, &mut genes.right);
    fill(
        m,
        |g| species.bearer(lines.genes.species[g] as usize) as u32,
        &mut genes.leaf,
    );
    fill(m, |g| lines.genes.parent[g], &mut genes.parent);
}

// The same, returned.
#[tactic(auto, unfolding(finite::specs::Tables::zeros))]
#[inline(always)]
pub fn build(lines: &Lines) -> Genes
    ensures { gene_tree lines.now.header.genes result ≡ gene_tree_of (nodes_of lines.now) (genes_of lines.now) }
{
    let mut genes = UNFILLED;
    build_into(lines, &mut genes);
    genes
}
