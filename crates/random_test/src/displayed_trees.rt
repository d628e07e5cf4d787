// The tree that a network displays under a setting, and what lies between two of its nodes.
ghost use Rattle.std.specs.Iterator.{at_most};

use super::networks::{Network, Node};
use std::alloc::{AllocError, Global};

// The arc into a node that is on; the root has no parent.
#[derive(Clone, Copy)]
struct Arc {
    parent: Option<usize>,
    is_secondary: bool,
}

impl Arc {
    fn into_node(node: &Node, is_on: bool) -> Arc {
        let turned = node.secondary.filter(|_| is_on);
        Arc {
            parent: turned.or(node.principal),
            is_secondary: turned.is_some(),
        }
    }
}

#[derive(Drop)]
pub(crate) struct DisplayedTree {
    arcs: Vec<Arc>,
}

impl DisplayedTree {
    // The tree under a setting: the highest-numbered reticulation has the lowest bit, so settings rise in the stated order.
    pub(crate) fn new(
        alloc: Global,
        network: &Network,
        setting: usize,
    ) -> Result<DisplayedTree, AllocError> {
        let mut bits = setting;
        let mut arcs = Vec::new(alloc);
        for node in network.nodes.iter().rev() {
            arcs.push(Arc::into_node(node, bits % 2 == 1))?;
            if node.is_reticulation() {
                bits /= 2;
            }
        }
        arcs.reverse();
        Ok(DisplayedTree { arcs })
    }

    pub(crate) fn parent(&self, v: usize) -> Option<usize> {
        self.arcs.get(v)?.parent
    }

    // Whether the arc into v is secondary.
    pub(crate) fn is_secondary(&self, v: usize) -> bool {
        self.arcs.get(v).is_some_and(|arc| arc.is_secondary)
    }

    // The first two children of v.
    pub(crate) fn children(&self, v: usize) -> (Option<usize>, Option<usize>) {
        let mut children = (0..self.arcs.len()).filter(|w| self.parent(*w) == Some(v));
        (children.next(), children.next())
    }

    // Whether one of the arcs out of v is secondary.
    pub(crate) fn sends(&self, v: usize) -> bool {
        self.arcs
            .iter()
            .any(|arc| arc.is_secondary && arc.parent == Some(v))
    }

    fn is_fork(&self, v: usize) -> bool {
        matches!(self.children(v), (Some(_), Some(_)))
    }

    // Node x and those above it, from below.
    fn upward(&self, x: usize) -> Upward<'_> {
        Upward {
            tree: self,
            next: Some(x),
            left: self.arcs.len(),
        }
    }

    // Whether v is x or above it.
    fn reaches(&self, v: usize, x: usize) -> bool {
        self.upward(x).any(|a| a == v)
    }

    // The lowest node that is at or above both x and y.
    pub(crate) fn lowest(&self, x: usize, y: usize) -> Option<usize> {
        self.upward(x).find(|a| self.reaches(*a, y))
    }

    // The secondary arcs from p down to x.
    pub(crate) fn transfers(&self, p: usize, x: usize) -> usize {
        self.upward(x)
            .take_while(|a| *a != p)
            .filter(|a| self.is_secondary(*a))
            .count()
    }

    // The nodes with two arcs out between p and x.
    pub(crate) fn forks(&self, p: usize, x: usize) -> usize {
        self.upward(x)
            .skip(1)
            .take_while(|a| *a != p)
            .filter(|a| self.is_fork(*a))
            .count()
    }
}

// The way up from a node, with no more steps than there are nodes. (An iterator of its own: Rattle has no `impl Iterator` as a result.)
#[derive(Drop)]
struct Upward<'a> {
    tree: &'a DisplayedTree,
    next: Option<usize>,
    left: usize,
}

impl Iterator for Upward<'_> {
    type Item = usize;

    ghost remaining = { λ s. at_most s.left };

    fn next(&mut self) -> Option<usize> {
        let v = self.next?;
        self.left = self.left.checked_sub(1)?;
        self.next = self.tree.parent(v);
        Some(v)
    }
}
