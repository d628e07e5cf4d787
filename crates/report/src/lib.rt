// The report: its lines, each written into what is left of the result. (The result and the place in it are two parameters, and the place after it a number:
// the rules name this form, and of a struct that borrows the result each promise would have to say what the borrowed bytes were and are.)
#![tactic(auto)]

ghost use Rattle.std.specs.Prelude.{◌≡◌, ℕ, ◌+◌, ◌*◌, ◌≤◌, length, Option, Some, IfSome};
ghost use Rattle.finite.specs.Range.{count};
ghost use Rattle.columns.specs.Writing.{written, put};
ghost use Rattle.text_lines.specs.Lines.{line_length, Small};
ghost use Rattle.report.specs.Reports.{SmallTotals, totals_lines, report_length, always, Extended};
ghost use Rattle.report.specs.inner.Tables.{reticulation_in, reticulation_numbers, node_line, gene_numbers, tabled_report, SmallNodes, SmallGenes};
ghost use Rattle.report.specs.inner.Written.{line_bytes, Telling, Tells};

use layout::lines::Lines;
use layout::parts::Parts;
use layout::results::Results;
use layout::tree::Tree;
use text_lines::FIELDS;

// The ten numbers of the first two lines, in their order, as the definitions have them. (A `mapping::Score` in place of the first four would set this crate
// upon `mapping` to save the copying of four fields.)
#[derive(Clone, Copy)]
pub struct Totals {
    pub cost: u32,
    pub duplications: u32,
    pub transfers: u32,
    pub losses: u32,
    pub trials: u32,
    pub whole: u32,
    pub nodes: u32,
    pub genes: u32,
    pub reticulations: u32,
    pub components: u32,
}

// The first two lines.
fn write_totals(res: &mut [u8], t: Totals) -> usize
    requires { (2 * line_length ≤ length res.old) × SmallTotals t }
    ensures { (res.new ≡ written res.old (totals_lines t)) × (result ≡ 2 * line_length) }
{
    let first = [t.cost, t.duplications, t.transfers, t.losses, t.trials];
    let second = [t.whole, t.nodes, t.genes, t.reticulations, t.components];
    let next = text_lines::append_line(res, 0, &first);
    text_lines::append_line(res, next, &second)
}

// The tables of a scored family, whose numbers all have fields.
#[derive(Clone, Copy)]
pub struct Tabled<'a> {
    pub lines: &'a Lines,
    pub tree: &'a Tree,
    pub parts: &'a Parts,
    pub results: &'a Results,
    ghost small_nodes: { SmallNodes lines.now.header.nodes tree.now parts.now },
    ghost small_genes: { SmallGenes lines.now.header.genes results.now },
}

impl<'a> Tabled<'a> {
    // The numbers of the line of reticulation v.
    #[tactic(auto, using(crate::proofs::Writing::node_rows))]
    fn reticulation_line(&self, v: usize) -> [u32; FIELDS]
        requires { (1 ≤ v) × (v ≤ self.now.lines.now.header.nodes) }
        ensures { result ≡ reticulation_numbers self.now.tree.now self.now.parts.now v }
    {
        let top = self.parts.top[v];
        [
            v as u32,
            self.tree.up[v],
            u32::from(self.tree.lateral[v]),
            top,
            self.parts.reticulation_count[top as usize],
        ]
    }

    // Those of the line of node v, if it is a reticulation.
    #[tactic(auto, using(finite::proofs::Tests::test_laws), unfolding(crate::specs::inner::Tables::node_line, crate::specs::inner::Tables::has_secondary))]
    fn line_of_node(&self, v: usize) -> Option<[u32; FIELDS]>
        requires { (1 ≤ v) × (v ≤ self.now.lines.now.header.nodes) }
        ensures { result ≡ node_line self.now.lines.now self.now.tree.now self.now.parts.now v }
    {
        if self.lines.nodes.secondary[v] == 0 {
            return None;
        }
        Some(self.reticulation_line(v))
    }

    // Those of the line of gene g.
    fn line_of_gene(&self, g: usize) -> Option<[u32; FIELDS]>
        requires { g ≤ 127 }
        ensures { result ≡ Some (gene_numbers self.now.results.now g) }
    {
        let gene = self.results[g];
        Some([
            g as u32,
            gene.place,
            gene.event.number(),
            gene.transfers,
            gene.losses,
        ])
    }
}

// Writes a line, where there is one, and returns the place after it.
#[tactic(auto, using(columns::proofs::Writing::put_nil, text_lines::proofs::Lines::length_line))]
fn append(res: &mut [u8], at: usize, line: Option<[u32; FIELDS]>) -> usize
    requires { (at + length (line_bytes line) ≤ length res.old) × IfSome line Small }
    ensures { (res.new ≡ put res.old at (line_bytes line)) × (result ≡ at + length (line_bytes line)) }
{
    let Some(fields) = line else {
        return at;
    };
    text_lines::append_line(res, at, &fields)
}

// The lines of 1 to n, each written into what is left of the result; a number without a line has none. (What is told is a quantifier of two clauses and no
// ghost value: a generic function with one has its clauses and its callers' goals without their names.)
fn write_lines<F: Fn(usize) -> Option<[u32; FIELDS]>>(
    res: &mut [u8],
    start: usize,
    n: usize,
    line: F,
) -> usize
    requires callable { (v : ℕ) → 1 ≤ v → v ≤ n → F.pre line v }
    requires told { (t : Telling) × Tells (F.post line) n t × (start + line_length * count n t.test ≤ length res.old) }
    ensures { (t : Telling) → Tells (F.post line) n t → Extended res.old res.new start result t.test t.fields n }
{
    let mut next = start;
    for v in 1..=n {
        next = append(res, next, line(v));
    }
    next
}

// A line for each reticulation of the network.
fn write_reticulations(res: &mut [u8], start: usize, tabled: &Tabled<'_>) -> usize
    requires { start + line_length * count tabled.now.lines.now.header.nodes (reticulation_in tabled.now.lines.now) ≤ length res.old }
    ensures { Extended res.old res.new start result (reticulation_in tabled.now.lines.now) (reticulation_numbers tabled.now.tree.now tabled.now.parts.now) tabled.now.lines.now.header.nodes }
{
    let n = tabled.lines.header.nodes;
    write_lines(res, start, n, |v| tabled.line_of_node(v))
}

// A line for each gene.
fn write_genes(res: &mut [u8], start: usize, tabled: &Tabled<'_>) -> usize
    requires { start + line_length * tabled.now.lines.now.header.genes ≤ length res.old }
    ensures { Extended res.old res.new start result always (gene_numbers tabled.now.results.now) tabled.now.lines.now.header.genes }
{
    let m = tabled.lines.header.genes;
    write_lines(res, start, m, |g| tabled.line_of_gene(g))
}

// Writes the report over the front of the result, and returns how many bytes it has.
pub fn write_report(res: &mut [u8], totals: Totals, tabled: &Tabled<'_>) -> usize
    requires small { SmallTotals totals }
    requires room { report_length tabled.now.lines.now.header.nodes tabled.now.lines.now.header.genes (reticulation_in tabled.now.lines.now) ≤ length res.old }
    ensures bytes { res.new ≡ written res.old (tabled_report totals tabled.now.lines.now tabled.now.tree.now tabled.now.parts.now tabled.now.results.now) }
    ensures end { result ≡ report_length tabled.now.lines.now.header.nodes tabled.now.lines.now.header.genes (reticulation_in tabled.now.lines.now) }
{
    let next = write_totals(res, totals);
    let last = write_reticulations(res, next, tabled);
    write_genes(res, last, tabled)
}
