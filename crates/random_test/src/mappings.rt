// The genes of a family mapped into the tree of a setting: their places and events, the transfers and losses on the way to them, and what these cost.
use super::displayed_trees::DisplayedTree;
use super::sheets::{Costs, End, Gene};
use std::alloc::{AllocError, Global};
use std::num::Saturating;

// The event of a gene, in the order of the report's numbers.
#[derive(Clone, Copy, PartialEq, Eq)]
pub(crate) enum Event {
    Leaf,
    Speciation,
    Duplication,
    Transfer,
}

// A gene in the tree, with the transfers and the losses on the way to it from its parent.
#[derive(Clone, Copy)]
pub(crate) struct MappedGene {
    pub place: usize,
    pub event: Event,
    pub transfers: usize,
    pub losses: usize,
}

// The places of the genes; one that is found nowhere has none, and then there is no mapping.
#[derive(Drop)]
struct Places<'a> {
    tree: &'a DisplayedTree,
    genes: &'a [Gene],
    places: Vec<Option<usize>>,
}

impl<'a> Places<'a> {
    // Places each gene after its children, which have higher numbers.
    fn find(
        alloc: Global,
        tree: &'a DisplayedTree,
        genes: &'a [Gene],
    ) -> Result<Places<'a>, AllocError> {
        let places = vec![in alloc; None; genes.len()]?;
        let mut found = Places {
            tree,
            genes,
            places,
        };
        for (g, gene) in genes.iter().enumerate().rev() {
            found.put(g, gene.end);
        }
        Ok(found)
    }

    fn put(&mut self, g: usize, end: End) {
        let place = self.lowest(end);
        if let Some(slot) = self.places.get_mut(g) {
            *slot = place;
        }
    }

    fn lowest(&self, end: End) -> Option<usize> {
        match end {
            End::Leaf(v) => Some(v),
            End::Children(a, b) => self.tree.lowest(self.place(a)?, self.place(b)?),
        }
    }

    fn place(&self, g: usize) -> Option<usize> {
        *self.places.get(g)?
    }

    fn event(&self, g: usize) -> Option<Event> {
        let End::Children(a, b) = self.genes.get(g)?.end else {
            return Some(Event::Leaf);
        };
        let p = self.place(g)?;
        let children = [self.place(a)?, self.place(b)?];
        Some(if children.contains(&p) {
            Event::Duplication
        } else if self.tree.sends(p) {
            Event::Transfer
        } else {
            Event::Speciation
        })
    }

    // The losses on the way to x from a gene.
    fn losses(&self, gene: usize, x: usize) -> Option<usize> {
        let p = self.place(gene)?;
        if p == x {
            return Some(0);
        }
        let lost = usize::from(self.event(gene)? == Event::Duplication);
        Some(self.tree.forks(p, x).saturating_add(lost))
    }

    // Gene g; no way leads to the first gene.
    fn mapped(&self, g: usize) -> Option<MappedGene> {
        let place = self.place(g)?;
        let (transfers, losses) = match self.genes.get(g)?.parent {
            Some(parent) => (
                self.tree.transfers(self.place(parent)?, place),
                self.losses(parent, place)?,
            ),
            None => (0, 0),
        };
        Some(MappedGene {
            place,
            event: self.event(g)?,
            transfers,
            losses,
        })
    }
}

#[derive(Drop)]
pub(crate) struct Mapping<'a> {
    pub tree: &'a DisplayedTree,
    pub genes: Vec<MappedGene>,
}

impl<'a> Mapping<'a> {
    // The mapping, where each gene has a place.
    pub(crate) fn new(
        alloc: Global,
        tree: &'a DisplayedTree,
        genes: &'a [Gene],
    ) -> Result<Option<Mapping<'a>>, AllocError> {
        let places = Places::find(alloc, tree, genes)?;
        let genes: Option<Vec<MappedGene>> = (0..genes.len())
            .map(|g| places.mapped(g))
            .collect(alloc)?;
        Ok(genes.map(|genes| Mapping { tree, genes }))
    }

    pub(crate) fn duplications(&self) -> usize {
        self.genes
            .iter()
            .filter(|gene| gene.event == Event::Duplication)
            .count()
    }

    // What the genes have of one number, added up.
    pub(crate) fn total<F: Fn(MappedGene) -> usize>(&self, number: F) -> usize
        requires { (gene : MappedGene) → F.pre number gene }
    {
        self.genes
            .iter()
            .map(|gene| Saturating(number(*gene)))
            .sum::<Saturating<usize>>()
            .0
    }

    pub(crate) fn cost(&self, costs: Costs) -> usize {
        let duplications = Saturating(costs.duplication) * Saturating(self.duplications());
        let transfers = Saturating(costs.transfer) * Saturating(self.total(|gene| gene.transfers));
        let losses = Saturating(costs.loss) * Saturating(self.total(|gene| gene.losses));
        (duplications + transfers + losses).0
    }
}
