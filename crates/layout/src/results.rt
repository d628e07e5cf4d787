// What the report says of each gene: its place, its event, the transfers and the losses on its way.
use crate::events::Event;
use tables::ENTRIES;

#[derive(Clone, Copy)]
pub struct Placed {
    pub place: u32,
    pub event: Event,
    pub transfers: u32,
    pub losses: u32,
}

// By gene: entry k is about gene k, entry 0 about none.
pub type Results = [Placed; ENTRIES];

// A gene of which nothing is known yet: a value that every gene's is written over before it is read, so that no Option is asked at each reading.
pub const UNPLACED: Placed = Placed {
    place: 0,
    event: Event::LeafGene,
    transfers: 0,
    losses: 0,
};
