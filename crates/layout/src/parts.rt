// What is worked out once of a network, by node: its rank, the top of its component, at a top how many reticulations the component has, and of a
// reticulation how many of its component have a lower number.
use tables::Column;

#[derive(Clone, Copy)]
pub struct Parts {
    pub rank: Column,
    pub top: Column,
    pub reticulation_count: Column,
    pub index: Column,
}
