// What the enumeration of all settings finds on a sheet, with the report that has to come out.
use super::cuts::Components;
use super::displayed_trees::DisplayedTree;
use super::mappings::Mapping;
use super::reports::Report;
use super::settings::{Best, costs};
use super::sheets::Family;
use super::written::Written;
use std::alloc::{AllocError, Global};

#[derive(Drop)]
pub(crate) struct Settled {
    pub settings: usize,
    pub best: Best,
    pub report: String,
    // How many words the table of the whole network has.
    pub words: usize,
}

impl Settled {
    // What is found on a scored sheet, where it and the report can be read.
    pub(crate) fn find(
        alloc: Global,
        sheet: &[u8],
        written: Written,
    ) -> Result<Option<Settled>, AllocError> {
        match (Family::read(alloc, sheet)?, written.whole()) {
            (Some(family), Some(whole)) => Settled::enumerate(alloc, &family, whole),
            _ => Ok(None),
        }
    }

    fn enumerate(
        alloc: Global,
        family: &Family,
        whole: usize,
    ) -> Result<Option<Settled>, AllocError> {
        let Some(costs) = costs(alloc, family)? else {
            return Ok(None);
        };
        let Some(best) = Best::of(costs.as_slice()) else {
            return Ok(None);
        };
        let report = report(alloc, family, best.setting, whole)?;
        Ok(report.map(|report| Settled {
            settings: costs.len(),
            best,
            report,
            words: family.network.len().saturating_mul(family.genes.len()),
        }))
    }
}

// The report on a setting, where it maps all genes.
fn report(
    alloc: Global,
    family: &Family,
    setting: usize,
    whole: usize,
) -> Result<Option<String>, AllocError> {
    let tree = DisplayedTree::new(alloc, &family.network, setting)?;
    let Some(mapping) = Mapping::new(alloc, &tree, family.genes.as_slice())? else {
        return Ok(None);
    };
    let report = Report {
        family,
        mapping,
        components: Components::find(alloc, &family.network)?,
        whole,
    };
    Ok(Some(format!(in alloc; "{report}")?))
}
