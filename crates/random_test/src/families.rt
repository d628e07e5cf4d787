// Random family sheets: a network, a gene tree and costs, spelled, and on some sheets damaged.
use super::draws::{Draws, Purpose};
use super::gene_trees::{Gene, descend};
use super::growth::Growth;
use super::lines::{LINE, Line, number, parent_number};
use std::alloc::{AllocError, Global};

// The numbers of the nodes on the sheet.
#[derive(Drop)]
struct Numbers {
    nodes: Vec<usize>,
}

impl Numbers {
    fn of(&self, v: usize) -> Option<usize> {
        self.nodes.get(v).copied()
    }

    // The number of a parent; 0 is none.
    fn of_parent(&self, parent: Option<usize>) -> Option<usize> {
        parent.map_or(Some(0), |v| self.of(v))
    }

    // The species of a leaf. It is not the leaf's number, but tells it: 13 is odd, so no two of 32 numbers have the same.
    fn species(&self, leaf: usize) -> Option<usize> {
        Some(1 + 100 * (13 * (self.of(leaf)? % 32) % 32))
    }

    // The species of a gene or a node that may be at a leaf; 0 is none.
    fn species_at(&self, leaf: Option<usize>) -> Option<usize> {
        leaf.map_or(Some(0), |v| self.species(v))
    }
}

// The first line of a sheet. On half of the sheets a transfer is free: then settings with different arcs on tie.
fn header(draws: Draws, nodes: usize, genes: usize) -> Line {
    let transfer = match draws.below(Purpose::Shape, 4, 2) {
        0 => 0,
        _ => draws.cost(1),
    };
    Line([nodes, genes, draws.cost(0), transfer, draws.cost(2)])
}

fn node_line(v: usize, growth: &Growth, numbers: &Numbers) -> Option<Line> {
    let node = growth.network.nodes.get(v)?;
    let leaf = growth.live.contains(&v).then_some(v);
    Some(Line([
        numbers.of(v)?,
        numbers.of_parent(node.principal)?,
        numbers.of_parent(node.secondary)?,
        node.stamp,
        numbers.species_at(leaf)?,
    ]))
}

fn gene_line(g: usize, gene: &Gene, numbers: &Numbers) -> Option<Line> {
    let parent = parent_number(gene.parent);
    Some(Line([number(g), parent, numbers.species_at(gene.leaf)?, 0, 0]))
}

// The lines of a sheet, the nodes in the order of their numbers; none where a node has no number.
fn sheet_lines(alloc: Global, draws: Draws) -> Result<Option<Vec<Line>>, AllocError> {
    let growth = Growth::of(alloc, draws)?;
    let genes = descend(alloc, draws, &growth)?;
    let nodes = growth.network.len();
    let numbers = Numbers {
        nodes: draws.shuffled(alloc, nodes)?,
    };
    let node_lines: Option<Vec<Line>> = (0..nodes)
        .map(|v| node_line(v, &growth, &numbers))
        .collect(alloc)?;
    let gene_lines: Option<Vec<Line>> = genes
        .iter()
        .enumerate()
        .map(|(g, gene)| gene_line(g, gene, &numbers))
        .collect(alloc)?;
    let (Some(mut node_lines), Some(gene_lines)) = (node_lines, gene_lines) else {
        return Ok(None);
    };
    node_lines.sort_unstable_by_key(|Line([number, ..])| *number);
    let mut lines = vec![in alloc; header(draws, nodes, genes.len())]?;
    lines.extend(node_lines)?;
    lines.extend(gene_lines)?;
    Ok(Some(lines))
}

// Another number in one field.
fn damage_field(draws: Draws, lines: &mut [Line]) {
    let damaged = draws.below(Purpose::Damage, 1, lines.len());
    let field = draws.below(Purpose::Damage, 2, 5);
    if let Some(line) = lines.get_mut(damaged) {
        line.0[field] = draws.below(Purpose::Damage, 3, 32);
    }
}

// Another byte.
fn damage_byte(draws: Draws, text: &mut [u8]) {
    let line = draws.below(Purpose::Damage, 1, text.len() / LINE);
    let other = draws.below(Purpose::Damage, 3, 32);
    let damaged = text.chunks_exact_mut(LINE).nth(line);
    if let Some(byte) = damaged.and_then(|line| line.get_mut(other % LINE)) {
        *byte = b' ' + other as u8;
    }
}

// A random sheet: one in ten is damaged in a field, and one in twenty in a byte.
pub(crate) fn sheet(alloc: Global, draws: Draws) -> Result<Option<Vec<u8>>, AllocError> {
    let Some(mut lines) = sheet_lines(alloc, draws)? else {
        return Ok(None);
    };
    let damage = draws.below(Purpose::Damage, 0, 20);
    if damage < 2 {
        damage_field(draws, lines.as_mut_slice());
    }
    let mut text = spell(alloc, lines.as_slice())?.into_bytes();
    if damage == 2 {
        damage_byte(draws, text.as_mut_slice());
    }
    Ok(Some(text))
}

fn spell(alloc: Global, lines: &[Line]) -> Result<String, AllocError> {
    let mut text = String::new(alloc);
    for line in lines {
        write!(text, "{line}")?;
    }
    Ok(text)
}
