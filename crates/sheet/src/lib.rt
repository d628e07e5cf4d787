// A family sheet: from bytes to the numbers of its lines, and the refusals 3, 4 and 5.
#![tactic(auto)]

ghost use Rattle.std.specs.Prelude.{◌≡◌, ◌+◌, ◌≤◌, ◌&&◌};
ghost use Rattle.finite.specs.Tables.{at};
ghost use Rattle.finite.specs.Tests.{same};
ghost use Rattle.layout.specs.Headers.{FewLines};
ghost use Rattle.sheet.specs.Sheets.{line_no, is_line, node_line, gene_line, header_of, HeadedIs, limits, whole, told, no_nodes, no_genes, Unread, NodesReadInto, GenesReadInto, ReadInto, LinesRead};

use columns::Cursor;
use layout::Header;
use layout::lines::{GeneColumns, Lines, NodeColumns};
use refusals::Refusal;
use tables::{MOST, ZEROS};
use text_lines::{FIELDS, LINE};

// The numbers of line i, read at its place: the definitions (`line_no`, `node_line`) speak of the place of a line, and a cursor handed on from the line before
// would have to be shown to be that place.
#[tactic(auto, using(crate::proofs::Reading::line_some, crate::proofs::Reading::line_none))]
fn line(s: &[u8], i: usize) -> Option<[u32; FIELDS]>
    requires { i ≤ 254 }
    ensures { result ≡ told (is_line s.now i) (line_no s.now i).line }
{
    let (numbers, _) = text_lines::read_line(s, Cursor { at: LINE * i })?;
    Some(numbers)
}

// 4: each number of a header line within its limits.
#[tactic(auto, unfolding(crate::specs::Sheets::limits, finite::specs::Tests::under))]
fn within_limits(line: &[u32; FIELDS]) -> bool
    ensures { result ≡ limits line.now }
{
    let [nodes, genes, duplication, transfer, loss] = *line;
    if !(1..=MOST as u32).contains(&nodes) || !(1..=MOST as u32).contains(&genes) {
        return false;
    }
    duplication <= 99 && transfer <= 99 && loss <= 99
}

// The header: refused where there is no header line, or where it is beyond the limits. (No `TryFrom` of the five numbers: it would stand in `layout`, which
// knows no refusals.)
pub fn read_header(s: &[u8]) -> Result<Header, Refusal>
    ensures { (result ≡ header_of s.now) × HeadedIs s.now result }
{
    let line = line(s, 0).ok_or(Refusal::NoHeader)?;
    if !within_limits(&line) {
        return Err(Refusal::BeyondLimits);
    }
    let [nodes, genes, duplication, transfer, loss] = line;
    Ok(Header {
        nodes: nodes as usize,
        genes: genes as usize,
        duplication,
        transfer,
        loss,
    })
}

// Whether a line bears the number w.
#[tactic(auto, unfolding(finite::specs::Tests::same))]
fn bears(line: &[u32; FIELDS], w: usize) -> bool
    ensures { result ≡ same (at line.now 0) w }
{
    let [number, ..] = *line;
    number as usize == w
}

// Whether a gene line bears the number g, and ends in two zeros.
#[tactic(auto, unfolding(finite::specs::Tests::same))]
fn bears_gene(line: &[u32; FIELDS], g: usize) -> bool
    ensures { result ≡ (same (at line.now 0) g && same (at line.now 3) 0 && same (at line.now 4) 0) }
{
    let [.., fourth, fifth] = *line;
    bears(line, g) && fourth == 0 && fifth == 0
}

// The length rule of 5, of a header whose numbers are few. (A function of its own, so that a call asks it before it has room for lines.)
#[tactic(auto, unfolding(crate::specs::Sheets::whole, finite::specs::Tests::same))]
pub fn is_whole(s: &[u8], header: Header) -> bool
    requires { FewLines header }
    ensures { result ≡ whole s.now header.nodes header.genes }
{
    s.len() == LINE * (1 + header.nodes + header.genes)
}

// A text whose header was accepted. (Node lines and gene lines have a reader each: they differ in place, test and columns, and a reader of both would take
// all three.)
#[derive(Clone, Copy)]
struct Headed<'a> {
    text: &'a [u8],
    header: Header,
    ghost within: { FewLines header },
}

impl Headed<'_> {
    // The numbers of node v's line, where it is well formed and in number.
    #[tactic(auto, using(crate::proofs::Reading::node_unread, crate::proofs::Reading::node_read, crate::proofs::Reading::node_misnumbered))]
    fn node(&self, v: usize) -> Option<[u32; FIELDS]>
        requires { v ≤ self.now.header.nodes }
        ensures { result ≡ told (node_line self.now.text.now v) (line_no self.now.text.now v).line }
    {
        line(self.text, v).filter(|numbers| bears(numbers, v))
    }

    // The numbers of gene g's line, where it is well formed and in number and ends in two zeros.
    #[tactic(auto, using(crate::proofs::Reading::gene_unread, crate::proofs::Reading::gene_read, crate::proofs::Reading::gene_misnumbered))]
    fn gene(&self, g: usize) -> Option<[u32; FIELDS]>
        requires { g ≤ self.now.header.genes }
        ensures { result ≡ told (gene_line self.now.text.now self.now.header.nodes g) (line_no self.now.text.now (self.now.header.nodes + g)).line }
    {
        line(self.text, self.header.nodes + g).filter(|numbers| bears_gene(numbers, g))
    }

    // The node lines, where all are so, into columns of zeros.
    fn nodes(&self, nodes: &mut NodeColumns) -> Option<()>
        requires { nodes.old ≡ no_nodes }
        ensures { NodesReadInto self.now.text.now self.now.header.nodes nodes.new result }
    {
        for v in 1..=self.header.nodes {
            let [_, principal, secondary, stamp, species] = self.node(v)?;
            nodes.principal[v] = principal;
            nodes.secondary[v] = secondary;
            nodes.stamp[v] = stamp;
            nodes.species[v] = species;
        }
        Some(())
    }

    // The gene lines, where all are so, into columns of zeros.
    fn genes(&self, genes: &mut GeneColumns) -> Option<()>
        requires { genes.old ≡ no_genes }
        ensures { GenesReadInto self.now.text.now self.now.header.nodes self.now.header.genes genes.new result }
    {
        for g in 1..=self.header.genes {
            let [_, parent, species, ..] = self.gene(g)?;
            genes.parent[g] = parent;
            genes.species[g] = species;
        }
        Some(())
    }
}

// Columns that no line has been read into.
pub const NO_NODES: NodeColumns = NodeColumns {
    principal: ZEROS,
    secondary: ZEROS,
    stamp: ZEROS,
    species: ZEROS,
};

pub const NO_GENES: GeneColumns = GeneColumns {
    parent: ZEROS,
    species: ZEROS,
};

// Reads the lines after an accepted header, of a text of the length that it tells, into lines that have this header and no more. (They are lent, since a
// function's result would be copied; and the length is asked before, since to have room for lines costs more than to refuse.)
pub fn read_into(s: &[u8], lines: &mut Lines) -> Result<(), Refusal>
    requires { Unread s.now lines.old }
    ensures { ReadInto s.now lines.old.header lines.new result }
{
    let sheet = Headed {
        text: s,
        header: lines.header,
    };
    sheet.nodes(&mut lines.nodes).ok_or(Refusal::BadLines)?;
    sheet.genes(&mut lines.genes).ok_or(Refusal::BadLines)
}

// The lines after an accepted header. (Inlined, so that they stand where the call has them.)
#[inline(always)]
pub fn read_lines(s: &[u8], header: Header) -> Result<Lines, Refusal>
    requires { FewLines header }
    ensures { LinesRead s.now header result }
{
    if !is_whole(s, header) {
        return Err(Refusal::BadLines);
    }
    let mut lines = Lines {
        header,
        nodes: NO_NODES,
        genes: NO_GENES,
    };
    read_into(s, &mut lines)?;
    Ok(lines)
}
