// A random gene tree: genes go down the network under a random setting, with losses, duplications and leaves of other species, until there are enough.
use super::displayed_trees::DisplayedTree;
use super::draws::{Draws, Purpose};
use super::growth::Growth;
use super::lines::number;
use std::alloc::{AllocError, Global};
use std::iter::successors;

// The most genes.
const MOST: usize = 31;

// A gene, with the node where it starts, and the leaf where it ends if it does not part.
#[derive(Clone, Copy)]
pub(crate) struct Gene {
    pub parent: Option<usize>,
    start: usize,
    pub leaf: Option<usize>,
}

// The genes that go down a network, from the first on.
#[derive(Drop)]
struct Descent<'a> {
    draws: Draws,
    growth: &'a Growth,
    tree: DisplayedTree,
    genes: Vec<Gene>,
}

// The gene tree of a sheet; its first gene starts at the root.
pub(crate) fn descend(
    alloc: Global,
    draws: Draws,
    growth: &Growth,
) -> Result<Vec<Gene>, AllocError> {
    let setting = draws.below(Purpose::Shape, 2, 64);
    let mut descent = Descent {
        draws,
        growth,
        tree: DisplayedTree::new(alloc, &growth.network, setting)?,
        genes: Vec::new(alloc),
    };
    descent.start(None, 0)?;
    for g in 0..MOST {
        descent.settle(g)?;
    }
    let Descent { genes, .. } = descent;
    Ok(genes)
}

impl Descent<'_> {
    fn start(&mut self, parent: Option<usize>, v: usize) -> Result<(), AllocError> {
        self.genes.push(Gene {
            parent,
            start: v,
            leaf: None,
        })?;
        Ok(())
    }

    // Whether there may be more genes.
    fn has_room(&self) -> bool {
        self.genes.len() < self.draws.below(Purpose::Shape, 3, 23)
    }

    // The child of v that gene g goes down to, if it does not stay: at a leaf always, at two arcs unless it loses a copy or has no room to part.
    fn next(&self, g: usize, v: usize) -> Option<usize> {
        let (a, b) = self.tree.children(v);
        if b.is_none() {
            return a;
        }
        match self.draws.fate(g, v) {
            0 => a,
            1 => b,
            _ => a.filter(|_| !self.has_room()),
        }
    }

    // Where gene g stays: the last node of its way down, which has no more nodes than the network.
    fn stay(&self, g: usize, start: usize) -> usize {
        successors(Some(start), |v| self.next(g, *v))
            .take(self.growth.network.len())
            .last()
            .unwrap_or(start)
    }

    // The leaf where gene g ends: half of the genes stray from the one that they came to.
    fn leaf(&self, g: usize, v: usize) -> usize {
        let i = number(g);
        if self.draws.below(Purpose::Stray, i, 2) != 0 {
            return v;
        }
        let live = self.growth.live.as_slice();
        self.draws.choose(live, Purpose::StrayLeaf, i).unwrap_or(v)
    }

    // Gene g, where there is one, ends at a leaf, or parts: into the two arcs, or now and then into two copies.
    fn settle(&mut self, g: usize) -> Result<(), AllocError> {
        let Some(start) = self.genes.get(g).map(|gene| gene.start) else {
            return Ok(());
        };
        let v = self.stay(g, start);
        let (Some(a), Some(b)) = self.tree.children(v) else {
            let leaf = self.leaf(g, v);
            if let Some(gene) = self.genes.get_mut(g) {
                gene.leaf = Some(leaf);
            }
            return Ok(());
        };
        let (a, b) = match self.draws.below(Purpose::Copies, number(g), 8) {
            0 => (v, v),
            _ => (a, b),
        };
        self.start(Some(g), a)?;
        self.start(Some(g), b)
    }
}
