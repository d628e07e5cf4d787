// The lines of the history that is shown: for each gene, rising, one for each of its steps. A column holds where each gene starts: a gene's last step says it
// of its children, whose numbers are higher.
#![tactic(auto)]

ghost use Rattle.std.specs.Prelude.{◌≡◌, [], ◌∷◌, ◌+◌, ◌-◌, ◌*◌, ◌≤◌, length, get_or};
ghost use Rattle.finite.specs.Tests.{same};
ghost use Rattle.finite.specs.Range.{first};
ghost use Rattle.columns.specs.Writing.{put};
ghost use Rattle.text_lines.specs.Lines.{line_length, lines_text, Small};
ghost use Rattle.layout.specs.Headers.{costs, WithinLimits};
ghost use Rattle.histories.specs.Histories.{least};
ghost use Rattle.tellings.specs.Steps.{code, step_cost};
ghost use Rattle.tellings.specs.Chosen.{onward, chosen_start, history_lines};
ghost use Rattle.tellings.specs.inner.Walks.{MayStart, walk, settle};
ghost use Rattle.whole_network.specs.inner.Stages.{RowOf, header, family};
ghost use Rattle.history_steps.specs.inner.StepChoices.{step_of};
ghost use Rattle.history_steps.specs.inner.Tables.{Tabled};
ghost use Rattle.history_lines.specs.inner.Lines.{StepWritten, WalkWritten, Sends, Known, RoomFor, GeneWritten};

use history_steps::{Step, choose};
use layout::Header;
use tables::{Column, ZEROS};
use text_lines::FIELDS;
use whole_network::Row;
use whole_network::source::Source;

// The numbers of the line of step k of gene g, at node v.
fn line(h: Header, g: usize, k: usize, v: usize, step: Step) -> [u32; FIELDS]
    requires { WithinLimits h × (g ≤ 127) × (k ≤ 128) × (v ≤ 127) }
    ensures { (result ≡ g ∷ k ∷ v ∷ code (step_of step) ∷ step_cost (costs h) (step_of step) ∷ []) × Small result }
{
    [g as u32, k as u32, v as u32, step.code(), step.cost(h)]
}

// The first of n words that is this one, counted from 1; 0 where none is.
fn first_at(n: usize, words: &[u32], word: u32) -> usize
    requires { n ≤ length words.now }
    ensures { result ≡ first n (λ v. same (get_or words.now (v - 1) 0) word) }
{
    for v in 1..=n {
        if words[v - 1] == word {
            return v;
        }
    }
    0
}

// A step whose line is written, and the place after it.
#[derive(Clone, Copy)]
struct LastStep {
    step: Step,
    next: usize,
}

// What the lines are written from: the network with its genes, and the table of least costs.
#[derive(Clone, Copy)]
struct HistoryWriter<'a> {
    source: &'a Source<'a>,
    table: &'a [u32],
}

impl HistoryWriter<'_> {
    // Writes the line of the step of a row's gene at node v, the k-th of its steps.
    fn write_step(self, row: Row, k: usize, v: usize, res: &mut [u8], at: usize) -> LastStep
        requires { Tabled self.source.now self.table.now × RowOf self.source.now row × MayStart (family self.source.now) row.gene v × (k ≤ 128) × (at + line_length ≤ length res.old) }
        ensures { StepWritten (family self.entry.source.now) row.gene k v res.old at res.new result }
    {
        let step = choose(self.source, self.table, row, v);
        let line = line(self.source.lines.header, row.gene, k, v, step);
        LastStep {
            step,
            next: text_lines::append_line(res, at, &line),
        }
    }

    // Writes the lines of gene g, which starts at node v; returns its last step.
    fn write_walk(self, g: usize, v: usize, res: &mut [u8], at: usize) -> LastStep
        requires { Tabled self.source.now self.table.now × (1 ≤ g) × (g ≤ (header self.source.now).genes) × MayStart (family self.source.now) g v × (at + line_length * length (walk (family self.source.now) g v) ≤ length res.old) }
        ensures { WalkWritten (family self.entry.source.now) g v res.old at res.new result }
    {
        let row = self.source.row(g);
        let mut last = self.write_step(row, 1, v, res, at);
        let mut k = 1;
        while let Some(w) = last.step.moved_to() {
            k += 1;
            last = self.write_step(row, k, w, res, last.next);
        }
        last
    }

    // The children of gene g start where its last step sends them.
    fn settle(self, starts: &mut Column, g: usize, last: Step)
        requires { (g ≤ 127) × Sends self.source.now g (step_of last) }
        ensures { starts.new ≡ settle ((family self.entry.source.now).gene g) (onward (step_of last)) starts.old }
    {
        let Some((p, q)) = last.parted_to() else {
            return;
        };
        let genes = self.source.genes;
        starts[genes.left[g] as usize] = p as u32;
        starts[genes.right[g] as usize] = q as u32;
    }

    // Writes the lines of gene g, whose start is known, and returns the place after them; its children's starts are known then.
    fn write_gene(self, starts: &mut Column, g: usize, res: &mut [u8], at: usize) -> usize
        requires { Tabled self.source.now self.table.now × (1 ≤ g) × (g ≤ (header self.source.now).genes) × Known (family self.source.now) (g - 1) starts.old × RoomFor (family self.source.now) g (length res.old) at }
        ensures { Known (family self.entry.source.now) g starts.new × GeneWritten (family self.entry.source.now) g res.old at res.new result }
    {
        let last = self.write_walk(g, starts[g] as usize, res, at);
        self.settle(starts, g, last.step);
        last.next
    }

    // The lowest node from which gene 1 has a history of the least cost.
    fn first_start(self) -> usize
        requires { Tabled self.source.now self.table.now }
        ensures { result ≡ chosen_start (family self.entry.source.now) }
    {
        let n = self.source.lines.header.nodes;
        first_at(n, self.table, cell_costs::least_start(n, self.table))
    }
}

// Writes the lines of the history at a place of the result, and returns the place after them.
pub fn append(source: &Source, table: &[u32], res: &mut [u8], at: usize) -> usize
    requires { Tabled source.now table.now × (at + line_length * length (history_lines (family source.now)) ≤ length res.old) }
    ensures { (res.new ≡ put res.old at (lines_text (history_lines (family source.now)))) × (result ≡ at + line_length * length (history_lines (family source.now))) }
{
    let writer = HistoryWriter { source, table };
    let mut starts = ZEROS;
    starts[1] = writer.first_start() as u32;
    let mut next = at;
    for g in 1..=source.lines.header.genes {
        next = writer.write_gene(&mut starts, g, res, next);
    }
    next
}
