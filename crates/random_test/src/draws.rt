// Pseudo-random numbers: each is worked out from the number of the sheet, what it is for and its own number, so no state is handed on.
ghost use Rattle.std.specs.Prelude.{◌<◌};

use super::lines::number;
use std::alloc::{AllocError, Global};

// What draws are for; those for what becomes of a gene at a node come after.
#[derive(Clone, Copy)]
pub(crate) enum Purpose {
    Shape,
    Damage,
    CostKind,
    Cost,
    Shuffle,
    Lineage,
    Receiver,
    Will,
    Stray,
    StrayLeaf,
    Copies,
}

// The first purpose of those that are a gene's.
const FATES: usize = 32;

// A one-to-one map of the words of 32 bits (xorshift).
fn mixed(x: u32) -> u32 {
    let a = x ^ (x << 13);
    let b = a ^ (a >> 17);
    b ^ (b << 5)
}

// The draws of one sheet.
#[derive(Clone, Copy)]
pub(crate) struct Draws {
    pub sheet: u32,
}

impl Draws {
    // Draw i of the 32 for one purpose of 64. Sums between the maps, since the maps alone are linear.
    fn draw(self, purpose: usize, i: usize) -> usize {
        let place = (32 * (purpose % 64) + i % 32) as u32;
        let a = mixed(self.sheet.wrapping_add(2654435769));
        let b = mixed(a.wrapping_add(place));
        let c = mixed(b.wrapping_add(2246822507));
        (c >> 8) as usize
    }

    // Draw i of those for one purpose, as a number below `end`; 0 where there is none.
    pub(crate) fn below(self, purpose: Purpose, i: usize, end: usize) -> usize
        ensures { 0 < end → result < end }
    {
        self.draw(purpose as usize, i).checked_rem(end).unwrap_or(0)
    }

    // What becomes of a gene at a node, one of 16 fates.
    pub(crate) fn fate(self, gene: usize, node: usize) -> usize {
        self.draw(FATES + number(gene) % 32, number(node)) % 16
    }

    // One of some nodes: the last of those up to a drawn one, or else the last of all.
    pub(crate) fn choose(self, nodes: &[usize], purpose: Purpose, i: usize) -> Option<usize> {
        let drawn = self.below(purpose, i, 31);
        let before = nodes.iter().copied().filter(|v| *v <= drawn).max();
        before.or(nodes.iter().copied().max())
    }

    // The numbers 1 to n in a random order.
    pub(crate) fn shuffled(self, alloc: Global, n: usize) -> Result<Vec<usize>, AllocError> {
        let mut numbers = Vec::new(alloc);
        for i in 1..=n {
            numbers.push(i)?;
            let last = numbers.len() - 1;
            let other = self.below(Purpose::Shuffle, i, numbers.len());
            numbers.swap(other, last);
        }
        Ok(numbers)
    }

    // A cost: now and then 0, mostly small, so that settings tie.
    pub(crate) fn cost(self, i: usize) -> usize {
        match self.below(Purpose::CostKind, i, 8) {
            0 => 0,
            1 => self.below(Purpose::Cost, i, 100),
            _ => 1 + self.below(Purpose::Cost, i, 4),
        }
    }
}
