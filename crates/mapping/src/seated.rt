// What is mapped. (Its own file, as its ghost field may cite nothing that names the struct.)
#![tactic(auto)]

ghost use Rattle.mapping.specs.inner.Evaluation.{Family};
ghost use Rattle.mapping.specs.inner.Props.{family_prop};

use layout::Header;
use layout::genes::Genes;
use layout::tree::Tree;

// A gene tree whose leaf genes sit at nodes of the tree that a network displays under a switching, and what its events cost.
// (That the ghost field's record has one proof at most is proved, since it names a root and a gene's side: specs/inner/Props.)
#[derive(Clone, Copy)]
pub struct SeatedGenes<'a> {
    pub header: Header,
    pub tree: &'a Tree,
    pub genes: &'a Genes,
    ghost family: { Family header tree.now genes.now } by { family_prop header tree.now genes.now },
}
