// What is lent to the search. (Its own file, as its ghost field may cite nothing that names the struct.)
#![tactic(auto)]

ghost use Rattle.search.specs.inner.Prepared.{Prepared};
ghost use Rattle.search.specs.inner.Props.{prepared_prop};

use layout::genes::Genes;
use layout::networks::PartedNetwork;

// A network and a gene tree that passed the refusals, with all that does not depend on the switching worked out once.
// (That its record has one proof at most is proved, since it names a gene's side: specs/inner/Props.)
#[derive(Clone, Copy)]
pub struct Given<'a> {
    pub network: PartedNetwork<'a>,
    pub genes: &'a Genes,
    ghost prepared: { Prepared network.lines.now genes.now } by { prepared_prop network.lines.now genes.now },
}
