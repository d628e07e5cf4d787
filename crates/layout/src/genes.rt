// A gene tree, by gene: its children, 0 for a leaf gene, the node of a leaf gene, and its parent, 0 for none. (The contracts alone speak of the parents. They
// stand in the table so that it tells the gene tree by itself: else each function that is lent a gene tree would be lent the lines beside it.)
use tables::Column;

#[derive(Clone, Copy)]
pub struct Genes {
    pub left: Column,
    pub right: Column,
    pub leaf: Column,
    pub parent: Column,
}
