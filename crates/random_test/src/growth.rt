// A random network grown forward in time: a lineage splits, or sends a transfer to another one. A lineage is open to a transfer if its parent splits and
// its sibling is no reticulation.
use super::draws::{Draws, Purpose};
use super::networks::{Network, Node};
use std::alloc::{AllocError, Global};

// The most reticulations: 64 settings.
const MOST: usize = 6;

// The stamp of leaves.
const TODAY: usize = 50;

#[derive(Drop)]
pub(crate) struct Growth {
    pub network: Network,
    // The lineages that have not ended: at last the leaves.
    pub live: Vec<usize>,
    // Those of them that are open to a transfer.
    open: Vec<usize>,
}

impl Growth {
    // The network of a sheet.
    pub(crate) fn of(alloc: Global, draws: Draws) -> Result<Growth, AllocError> {
        let nodes = Vec::new(alloc);
        let mut growth = Growth {
            network: Network { nodes },
            live: Vec::new(alloc),
            open: Vec::new(alloc),
        };
        growth.start(None)?;
        for time in 0..draws.below(Purpose::Shape, 1, 16) {
            growth.step(draws, time)?;
        }
        Ok(growth)
    }

    // What happens at a time: a split, or a transfer where there is a lineage to receive it.
    fn step(&mut self, draws: Draws, time: usize) -> Result<(), AllocError> {
        let Some(v) = draws.choose(self.live.as_slice(), Purpose::Lineage, time) else {
            return Ok(());
        };
        self.end(v, time);
        let willing = draws.below(Purpose::Shape, 0, 4);
        let is_willing = draws.below(Purpose::Will, time, 4) <= willing;
        match draws.choose(self.open.as_slice(), Purpose::Receiver, time) {
            Some(w) if is_willing && self.network.reticulations() < MOST => {
                self.transfer(v, w, time)
            }
            _ => self.split(v),
        }
    }

    // A new lineage.
    fn start(&mut self, parent: Option<usize>) -> Result<usize, AllocError> {
        let v = self.network.len();
        self.network.nodes.push(Node {
            principal: parent,
            secondary: None,
            stamp: TODAY,
        })?;
        self.live.push(v)?;
        Ok(v)
    }

    // Lineage v ends in a node.
    fn end(&mut self, v: usize, time: usize) {
        if let Some(node) = self.network.nodes.get_mut(v) {
            node.stamp = time;
        }
        self.live.retain(|w| *w != v);
        self.open.retain(|w| *w != v);
    }

    // Node v splits.
    fn split(&mut self, v: usize) -> Result<(), AllocError> {
        for _ in 0..2 {
            let child = self.start(Some(v))?;
            self.open.push(child)?;
        }
        Ok(())
    }

    // Node v sends a transfer to lineage w, whose parent keeps a child that is no reticulation.
    fn transfer(&mut self, v: usize, w: usize, time: usize) -> Result<(), AllocError> {
        self.end(w, time);
        if let Some(node) = self.network.nodes.get_mut(w) {
            node.secondary = Some(v);
        }
        let network = &self.network;
        let parent = network.principal(w);
        self.open.retain(|x| network.principal(*x) != parent);
        self.start(Some(v))?;
        self.start(Some(w))?;
        Ok(())
    }
}
