// Where the numbers of a family stand: the lines of its sheet, and the tables that are worked out from them, as structs of named columns. What is found of
// a gene is a record. (Columns and no records by node: a climb reads few numbers of many nodes, and with records the search took 19 to 32 % longer; the other
// tables are as the tree, so that one function fills a column of any.)
#![tactic(auto)]

pub mod choices;
pub mod events;
pub mod genes;
pub mod lines;
pub mod networks;
pub mod parts;
pub mod results;
pub mod tree;

// "Header: network nodes n, gene nodes m, costs of a duplication (D), a transfer (T) and a loss (L)".
// (That its numbers are few, or within the limits, stands where it holds, in `Lines` and in clauses: the definitions speak of the header of any text.)
#[derive(Clone, Copy)]
pub struct Header {
    pub nodes: usize,
    pub genes: usize,
    pub duplication: u32,
    pub transfer: u32,
    pub loss: u32,
}
