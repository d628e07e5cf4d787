// Gene trees as Newick text: the tree reader and the pair reader call each other, and number the genes as they meet them.
#![tactic(auto)]

ghost use Rattle.std.specs.Prelude.{◌≡◌, ◌+◌, ◌≤◌, ◌<◌, length, IfSome, OnSome};
ghost use Rattle.newick.specs.Reading.{leaf_at, tree_at, pair_at};
ghost use Rattle.newick.specs.Answers.{Promise};
ghost use Rattle.newick.specs.inner.Steps.{digit_at, passed, Whole, entered, Outcome};

use layout::lines::GeneColumns;
use refusals::Refusal;
use tables::MOST;

// The longest text of a tree of as many genes as the columns have room for.
pub const LONGEST: usize = 574;

// A species number with the place after it.
#[derive(Clone, Copy)]
struct Numeral {
    species: u32,
    next: usize,
}

// A place in a text, and how many genes have been met before it.
#[derive(Clone, Copy)]
struct Place {
    at: usize,
    genes: usize,
}

// Writes a gene's parent and species, where the columns have room for it.
fn enter(own: usize, up: usize, species: u32, genes: &mut GeneColumns)
    requires { up < own }
    ensures written { genes.new ≡ entered genes.old own up species }
    ensures whole { Whole genes.old }
{
    if own <= MOST {
        genes.parent[own] = up as u32;
        genes.species[own] = species;
    }
}

// The reader of a text. (The columns that it fills are a parameter and no field: a reader that changes itself owes at each return that its text stays.)
#[derive(Clone, Copy)]
struct Reader<'a> {
    text: &'a [u8],
}

impl Reader<'_> {
    // What the digit at a place counts for: the library's `to_digit`, under the name by which a definition (`digit_at`) is told.
    fn digit(&self, at: usize) -> Option<u32>
        ensures value { result ≡ digit_at self.now.text.now at }
        ensures few { IfSome result (λ d. d ≤ 9) }
        ensures within { OnSome result (at < length self.now.text.now) }
    {
        let b = *self.text.get(at)?;
        char::from(b).to_digit(10)
    }

    // The species number at a place.
    fn read_numeral(&self, at: usize) -> Option<Numeral>
        ensures value { result ≡ leaf_at self.now.text.now at }
        ensures within { OnSome result (at < length self.now.text.now) }
    {
        let mut species = self.digit(at)?;
        if species == 0 {
            return None;
        }
        for next in at + 1..at + 6 {
            let Some(d) = self.digit(next) else {
                return Some(Numeral { species, next });
            };
            species = species * 10 + d;
        }
        Some(Numeral {
            species,
            next: at + 6,
        })
    }

    // The place behind a byte, where that is the next one.
    fn pass(&self, from: Place, b: u8) -> Option<Place>
        requires { 1 ≤ b }
        ensures value { result ≡ passed self.now.text.now b from }
        ensures behind { IfSome result (λ p. (p.at ≡ from.at + 1) × (p.genes ≡ from.genes)) }
        ensures within { OnSome result (from.at < length self.now.text.now) }
    {
        let next = *self.text.get(from.at)?;
        (next == b).then_some(Place {
            at: from.at + 1,
            ..from
        })
    }

    // The tree at a place.
    #[tactic(auto, using(crate::proofs::Turns::tree_pair, crate::proofs::Turns::tree_none, crate::proofs::Turns::tree_leaf))]
    #[cycle(pair_tree)]
    fn tree(&self, from: Place, up: usize, genes: &mut GeneColumns) -> Option<Place>
        requires apart { from.genes ≤ from.at }
        requires met { up ≤ from.genes }
        ensures { Outcome (tree_at self.now.text.now from.at) from.genes up genes.old result genes.new }
    {
        if let Some(inside) = self.pass(from, b'(') {
            return self.pair(inside, up, genes);
        }
        let Numeral { species, next } = self.read_numeral(from.at)?;
        let own = from.genes + 1;
        enter(own, up, species, genes);
        Some(Place {
            at: next,
            genes: own,
        })
    }

    // The pair at a place after its bracket.
    #[tactic(auto, using(crate::proofs::Turns::pair_no_left, crate::proofs::Turns::pair_no_comma, crate::proofs::Turns::pair_no_right, crate::proofs::Turns::pair_end))]
    #[cycle(pair_tree)]
    fn pair(&self, from: Place, up: usize, genes: &mut GeneColumns) -> Option<Place>
        requires apart { from.genes < from.at }
        requires met { up ≤ from.genes }
        ensures { Outcome (pair_at self.now.text.now from.at) from.genes up genes.old result genes.new }
    {
        let own = from.genes + 1;
        enter(own, up, 0, genes);
        let left = self.tree(Place { genes: own, ..from }, own, genes)?;
        let comma = self.pass(left, b',')?;
        let right = self.tree(comma, own, genes)?;
        self.pass(right, b')')
    }
}

// Reads a whole text, and puts the parents and the species of its genes into their columns; 14 or 15 where it is refused.
#[tactic(auto, using(crate::proofs::Answers::answer_none))]
pub fn read(text: &[u8], genes: &mut GeneColumns) -> Result<usize, Refusal>
    ensures { Promise text.now genes.old genes.new result }
{
    if text.len() > LONGEST {
        return Err(Refusal::LargeGeneTree);
    }
    let reader = Reader { text };
    let tree = reader
        .tree(Place { at: 0, genes: 0 }, 0, genes)
        .ok_or(Refusal::OutsideGrammar)?;
    let end = reader.pass(tree, b';').ok_or(Refusal::OutsideGrammar)?;
    if end.at != text.len() {
        return Err(Refusal::OutsideGrammar);
    }
    if end.genes > MOST {
        return Err(Refusal::LargeGeneTree);
    }
    Ok(end.genes)
}
