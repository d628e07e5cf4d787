// The lines of a sheet by column: entry v of a column of the network lines is about node v, and entry g of one of the gene lines about gene g. As in the
// sheet and in the definitions that promises cite, 0 is no parent and no species.
ghost use Rattle.layout.specs.Headers.{FewLines};

use crate::Header;
use tables::Column;

#[derive(Clone, Copy)]
pub struct NodeColumns {
    pub principal: Column,
    pub secondary: Column,
    pub stamp: Column,
    pub species: Column,
}

#[derive(Clone, Copy)]
pub struct GeneColumns {
    pub parent: Column,
    pub species: Column,
}

// A sheet as numbers, with at most 127 nodes and 127 genes.
#[derive(Clone, Copy)]
pub struct Lines {
    pub header: Header,
    pub nodes: NodeColumns,
    pub genes: GeneColumns,
    ghost within: { FewLines header },
}
