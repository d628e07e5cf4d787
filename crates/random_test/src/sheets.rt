// What a sheet says, read from its bytes.
use super::lines::{LINE, Line, parent_numbered};
use super::networks::{Network, Node};
use std::alloc::{AllocError, Global};

// What a duplication, a transfer and a loss cost.
#[derive(Clone, Copy)]
pub(crate) struct Costs {
    pub duplication: usize,
    pub transfer: usize,
    pub loss: usize,
}

// Where a gene goes: to the leaf of its species, or to its two children.
#[derive(Clone, Copy)]
pub(crate) enum End {
    Leaf(usize),
    Children(usize, usize),
}

#[derive(Clone, Copy)]
pub(crate) struct Gene {
    pub parent: Option<usize>,
    pub end: End,
}

#[derive(Drop)]
pub(crate) struct Family {
    pub network: Network,
    pub genes: Vec<Gene>,
    pub costs: Costs,
}

impl Node {
    fn read(line: &Line) -> Node {
        let Line([_, principal, secondary, stamp, _]) = *line;
        Node {
            principal: parent_numbered(principal),
            secondary: parent_numbered(secondary),
            stamp,
        }
    }
}

// The node of a species.
fn leaf_of(species: usize, nodes: &[Line]) -> Option<usize> {
    nodes.iter().position(|Line([.., other])| *other == species)
}

impl Gene {
    // The gene of line g; none where it has one child or more than two.
    fn read(g: usize, genes: &[Line], nodes: &[Line]) -> Option<Gene> {
        let Line([_, parent, species, _, _]) = *genes.get(g)?;
        let mut children = genes
            .iter()
            .enumerate()
            .filter(|(_, Line([_, parent, ..]))| parent_numbered(*parent) == Some(g))
            .map(|(child, _)| child);
        let end = match (children.next(), children.next(), children.next()) {
            (None, _, _) => End::Leaf(leaf_of(species, nodes)?),
            (Some(a), Some(b), None) => End::Children(a, b),
            _ => return None,
        };
        Some(Gene {
            parent: parent_numbered(parent),
            end,
        })
    }
}

impl Family {
    // The family of a sheet, if it can be read.
    pub(crate) fn read(alloc: Global, sheet: &[u8]) -> Result<Option<Family>, AllocError> {
        let lines: Option<Vec<Line>> = sheet.chunks_exact(LINE).map(Line::read).collect(alloc)?;
        match lines {
            Some(lines) => Family::of_lines(alloc, lines.as_slice()),
            None => Ok(None),
        }
    }

    fn of_lines(alloc: Global, lines: &[Line]) -> Result<Option<Family>, AllocError> {
        let Some((header, nodes, genes)) = parted(lines) else {
            return Ok(None);
        };
        let Line([_, _, duplication, transfer, loss]) = *header;
        let costs = Costs {
            duplication,
            transfer,
            loss,
        };
        let genes: Option<Vec<Gene>> = (0..genes.len())
            .map(|g| Gene::read(g, genes, nodes))
            .collect(alloc)?;
        let nodes = nodes.iter().map(Node::read).collect(alloc)?;
        Ok(genes.map(|genes| Family {
            network: Network { nodes },
            genes,
            costs,
        }))
    }
}

// The header, the lines of the nodes and those of the genes.
fn parted(lines: &[Line]) -> Option<(&Line, &[Line], &[Line])> {
    let (header, others) = lines.split_first()?;
    let Line([nodes, ..]) = *header;
    let (nodes, genes) = others.split_at_checked(nodes)?;
    Some((header, nodes, genes))
}
