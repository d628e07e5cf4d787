// What the table of least costs is filled from, all of it lent. (Its own file, as its ghost fields may cite nothing that names the struct.)
ghost use Rattle.layout.specs.Lines.{nodes_of};
ghost use Rattle.arcs.specs.inner.Arcs.{Laid};
ghost use Rattle.arcs.specs.inner.Props.{laid_prop};
ghost use Rattle.whole_network.specs.inner.Families.{AcceptedIn};
ghost use Rattle.whole_network.specs.inner.Props.{accepted_prop};

use arcs::Arcs;
use layout::genes::Genes;
use layout::lines::Lines;

// A `Source` whose arcs stand where they were laid: held, they would be copied.
#[derive(Clone, Copy)]
pub struct LentSource<'a> {
    pub lines: &'a Lines,
    pub genes: &'a Genes,
    pub arcs: &'a Arcs,
    ghost accepted: { AcceptedIn lines.now genes.now } by { accepted_prop lines.now genes.now },
    ghost laid: { Laid (nodes_of lines.now) arcs.now } by { laid_prop (nodes_of lines.now) arcs.now },
}
