// The tree that a network displays under a switching, by node: the parent whose arc is on, whether that arc is secondary, the rank, and how many on arcs
// leave it. The rank is that of the parts, copied so that a climb has what it reads in one table.
use tables::{Column, Flags};

#[derive(Clone, Copy)]
pub struct Tree {
    pub up: Column,
    pub lateral: Flags,
    pub rank: Column,
    pub arcs: Column,
}
