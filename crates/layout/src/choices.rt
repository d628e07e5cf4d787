// The settings of the components, by top: the one that is tried, and the best so far.
use tables::Column;

#[derive(Clone, Copy)]
pub struct Choices {
    pub setting: Column,
    pub best: Column,
}
