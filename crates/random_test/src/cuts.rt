// Components by the definition: an arc is cut if its ends are parted without it, and a component is topped by the root or by the end of a cut arc.
use super::networks::Network;
use super::settings::settings;
use std::alloc::{AllocError, Global};
use std::num::Saturating;

// The nodes that are joined to one of them. (Flags, and no set of the library: a set allocates as it grows, so that each method would hand on an error.)
#[derive(Drop)]
struct Joined {
    nodes: Vec<bool>,
}

impl Joined {
    fn contains(&self, v: usize) -> bool {
        self.nodes.get(v) == Some(&true)
    }

    fn insert(&mut self, v: usize) {
        if let Some(joined) = self.nodes.get_mut(v) {
            *joined = true;
        }
    }

    // An arc from a parent to w joins each of its ends to the other.
    fn join(&mut self, parent: Option<usize>, w: usize) {
        if let Some(v) = parent
            && self.contains(v) != self.contains(w)
        {
            self.insert(v);
            self.insert(w);
        }
    }

    // All arcs but the principal one into `cut`.
    fn join_all(&mut self, network: &Network, cut: usize) {
        for (w, node) in network.nodes.iter().enumerate() {
            self.join(node.principal.filter(|_| w != cut), w);
            self.join(node.secondary, w);
        }
    }
}

// Whether the principal arc into v from its parent is all that joins them.
fn is_cut(alloc: Global, network: &Network, parent: usize, v: usize) -> Result<bool, AllocError> {
    let mut joined = Joined {
        nodes: vec![in alloc; false; network.len()]?,
    };
    joined.insert(v);
    for _ in 0..network.len() {
        joined.join_all(network, v);
    }
    Ok(!joined.contains(parent))
}

// The top of the component of v.
fn top(alloc: Global, network: &Network, v: usize) -> Result<usize, AllocError> {
    let mut a = v;
    for _ in 0..network.len() {
        match network.principal(a) {
            Some(parent) if !is_cut(alloc, network, parent, a)? => a = parent,
            _ => return Ok(a),
        }
    }
    Ok(a)
}

// The components, by the tops of all reticulations; other nodes have none here.
#[derive(Drop)]
pub(crate) struct Components {
    tops: Vec<Option<usize>>,
}

impl Components {
    pub(crate) fn find(alloc: Global, network: &Network) -> Result<Components, AllocError> {
        let mut tops = Vec::new(alloc);
        for (v, node) in network.nodes.iter().enumerate() {
            tops.push(match node.secondary {
                Some(_) => Some(top(alloc, network, v)?),
                None => None,
            })?;
        }
        Ok(Components { tops })
    }

    pub(crate) fn top(&self, v: usize) -> Option<usize> {
        *self.tops.get(v)?
    }

    // How many reticulations the component below a top has.
    pub(crate) fn reticulations(&self, top: usize) -> usize {
        self.tops
            .iter()
            .filter(|other| **other == Some(top))
            .count()
    }

    // The components with a reticulation.
    pub(crate) fn count(&self) -> usize {
        (0..self.tops.len())
            .filter(|v| self.reticulations(*v) != 0)
            .count()
    }

    // The settings of each component with a reticulation, added up.
    pub(crate) fn trials(&self) -> usize {
        (0..self.tops.len())
            .map(|v| self.reticulations(v))
            .filter(|reticulations| *reticulations != 0)
            .map(|reticulations| Saturating(settings(reticulations)))
            .sum::<Saturating<usize>>()
            .0
    }
}
