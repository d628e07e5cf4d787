// What the table of least costs is filled from. (Its own file, as its ghost fields may cite nothing that names the struct.)
ghost use Rattle.layout.specs.Lines.{nodes_of};
ghost use Rattle.arcs.specs.inner.Arcs.{Laid};
ghost use Rattle.arcs.specs.inner.Props.{laid_prop};
ghost use Rattle.whole_network.specs.inner.Families.{AcceptedIn};
ghost use Rattle.whole_network.specs.inner.Props.{accepted_prop};

use arcs::Arcs;
use layout::genes::Genes;
use layout::lines::Lines;

// A sheet that no refusal applies to, and the arcs of its network. (That the record of each ghost field has one proof at most is proved, since the one names
// a root and a gene's side, and the other the nodes' places: specs/inner/Props here and in crate arcs.)
#[derive(Clone, Copy)]
pub struct Source<'a> {
    pub lines: &'a Lines,
    pub genes: &'a Genes,
    pub arcs: Arcs,
    ghost accepted: { AcceptedIn lines.now genes.now } by { accepted_prop lines.now genes.now },
    ghost laid: { Laid (nodes_of lines.now) arcs } by { laid_prop (nodes_of lines.now) arcs },
}
