// What the run counts.
use super::enumeration::Settled;
use super::written::Written;
use std::fmt;
use std::num::Saturating;

// Sheets made, scored and refused, refusal numbers added up, settings enumerated, sheets whose best setting has a secondary arc on, sheets with several
// cheapest settings, costs added up, sheets on which anything differs.
#[derive(Clone, Copy, Default)]
pub(crate) struct Counts {
    pub sheets: Saturating<usize>,
    pub scored: Saturating<usize>,
    pub refused: Saturating<usize>,
    pub numbers: Saturating<usize>,
    pub settings: Saturating<usize>,
    pub secondary: Saturating<usize>,
    pub ties: Saturating<usize>,
    pub costs: Saturating<usize>,
    pub mismatches: Saturating<usize>,
}

impl Counts {
    // No sheet could be made.
    pub(crate) fn add_unmade(&mut self) {
        self.mismatches += 1;
    }

    // A refusal leaves result and scratch as they were.
    pub(crate) fn add_refusal(&mut self, number: u32, written: Written) {
        self.sheets += 1;
        self.refused += 1;
        self.numbers += number as usize;
        self.mismatches += usize::from(!written.holds_only(&[], 0));
    }

    // A report of some length is compared with the one that has to come out; there is none where the sheet or the report cannot be read.
    pub(crate) fn add_report(&mut self, length: usize, settled: Option<Settled>, written: Written) {
        self.sheets += 1;
        self.scored += 1;
        let Some(settled) = settled else {
            self.mismatches += 1;
            return;
        };
        let report = settled.report.as_bytes();
        let is_right = length == report.len() && written.holds_only(report, settled.words);
        self.settings += settled.settings;
        self.secondary += usize::from(settled.best.setting != 0);
        self.ties += usize::from(settled.best.equals != 1);
        self.costs += settled.best.cost;
        self.mismatches += usize::from(!is_right);
    }
}

impl fmt::Display for Counts {
    fn fmt<W: fmt::Write>(&self, f: &mut fmt::Formatter<W>) -> fmt::Result {
        let lines = [
            ("sheets", self.sheets),
            ("scored", self.scored),
            ("refused", self.refused),
            ("numbers", self.numbers),
            ("settings", self.settings),
            ("secondary", self.secondary),
            ("ties", self.ties),
            ("costs", self.costs),
            ("mismatches", self.mismatches),
        ];
        for (name, count) in lines {
            writeln!(f, "{name:10}{:6}", count.0)?;
        }
        Ok(())
    }
}
