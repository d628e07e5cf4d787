// The enumeration: all settings of the whole network in the stated order.
use super::displayed_trees::DisplayedTree;
use super::mappings::Mapping;
use super::sheets::Family;
use std::alloc::{AllocError, Global};

// The first of the cheapest settings, its cost, and how many settings cost as much.
#[derive(Clone, Copy)]
pub(crate) struct Best {
    pub setting: usize,
    pub cost: usize,
    pub equals: usize,
}

impl Best {
    // The best of settings by their costs.
    pub(crate) fn of(costs: &[usize]) -> Option<Best> {
        let (setting, cost) = costs
            .iter()
            .copied()
            .enumerate()
            .min_by_key(|(_, cost)| *cost)?;
        let equals = costs.iter().filter(|other| **other == cost).count();
        Some(Best {
            setting,
            cost,
            equals,
        })
    }
}

// How many settings there are: each reticulation doubles them.
pub(crate) fn settings(reticulations: usize) -> usize {
    2usize.saturating_pow(u32::try_from(reticulations).unwrap_or(u32::MAX))
}

// What each setting of a family costs, where each maps all genes.
pub(crate) fn costs(alloc: Global, family: &Family) -> Result<Option<Vec<usize>>, AllocError> {
    let mut costs = Vec::new(alloc);
    for setting in 0..settings(family.network.reticulations()) {
        let tree = DisplayedTree::new(alloc, &family.network, setting)?;
        let Some(mapping) = Mapping::new(alloc, &tree, family.genes.as_slice())? else {
            return Ok(None);
        };
        costs.push(mapping.cost(family.costs))?;
    }
    Ok(Some(costs))
}
