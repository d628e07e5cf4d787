// Species networks.

// A node with its parents: the root has none, and a reticulation has a secondary one too.
#[derive(Clone, Copy)]
pub(crate) struct Node {
    pub principal: Option<usize>,
    pub secondary: Option<usize>,
    pub stamp: usize,
}

impl Node {
    pub(crate) fn is_reticulation(&self) -> bool {
        self.secondary.is_some()
    }
}

#[derive(Drop)]
pub(crate) struct Network {
    pub nodes: Vec<Node>,
}

impl Network {
    pub(crate) fn len(&self) -> usize {
        self.nodes.len()
    }

    // The parent of v by its principal arc.
    pub(crate) fn principal(&self, v: usize) -> Option<usize> {
        self.nodes.get(v)?.principal
    }

    pub(crate) fn reticulations(&self) -> usize {
        self.nodes
            .iter()
            .filter(|node| node.is_reticulation())
            .count()
    }
}
