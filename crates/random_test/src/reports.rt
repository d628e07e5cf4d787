// The report that has to come out, spelled by this program.
use super::cuts::Components;
use super::lines::{Line, number, parent_number};
use super::mappings::{MappedGene, Mapping};
use super::sheets::Family;
use std::fmt;

// What a report tells of a family under a setting.
#[derive(Drop)]
pub(crate) struct Report<'a> {
    pub family: &'a Family,
    pub mapping: Mapping<'a>,
    pub components: Components,
    // The whole-network cost.
    pub whole: usize,
}

impl Report<'_> {
    fn totals(&self) -> Line {
        Line([
            self.mapping.cost(self.family.costs),
            self.mapping.duplications(),
            self.mapping.total(|gene| gene.transfers),
            self.mapping.total(|gene| gene.losses),
            self.components.trials(),
        ])
    }

    fn sizes(&self) -> Line {
        Line([
            self.whole,
            self.family.network.len(),
            self.family.genes.len(),
            self.family.network.reticulations(),
            self.components.count(),
        ])
    }

    // The line of node v, if it is a reticulation.
    fn reticulation(&self, v: usize) -> Option<Line> {
        let top = self.components.top(v)?;
        Some(Line([
            number(v),
            parent_number(self.mapping.tree.parent(v)),
            usize::from(self.mapping.tree.is_secondary(v)),
            number(top),
            self.components.reticulations(top),
        ]))
    }
}

fn gene_line(g: usize, gene: &MappedGene) -> Line {
    Line([
        number(g),
        number(gene.place),
        gene.event as usize,
        gene.transfers,
        gene.losses,
    ])
}

impl fmt::Display for Report<'_> {
    fn fmt<W: fmt::Write>(&self, f: &mut fmt::Formatter<W>) -> fmt::Result {
        write!(f, "{}{}", self.totals(), self.sizes())?;
        let reticulations = (0..self.family.network.len()).filter_map(|v| self.reticulation(v));
        let genes = self.mapping.genes.iter().enumerate();
        for line in reticulations.chain(genes.map(|(g, gene)| gene_line(g, gene))) {
            write!(f, "{line}")?;
        }
        Ok(())
    }
}
