// Lines of five numbers in six columns each, spelled and read by this program's own rules.
use std::fmt;

// How many bytes a number and a line have; a line feed ends the line.
const FIELD: usize = 6;

pub(crate) const LINE: usize = 31;

// The five numbers of a line.
#[derive(Clone, Copy)]
pub(crate) struct Line(pub [usize; 5]);

impl fmt::Display for Line {
    fn fmt<W: fmt::Write>(&self, f: &mut fmt::Formatter<W>) -> fmt::Result {
        let [a, b, c, d, e] = self.0;
        writeln!(f, "{a:6}{b:6}{c:6}{d:6}{e:6}")
    }
}

impl Line {
    pub(crate) fn read(text: &[u8]) -> Option<Line> {
        let mut numbers = text.chunks_exact(FIELD).map(read_number);
        Some(Line([
            numbers.next()??,
            numbers.next()??,
            numbers.next()??,
            numbers.next()??,
            numbers.next()??,
        ]))
    }
}

fn read_number(field: &[u8]) -> Option<usize> {
    str::from_utf8(field).ok()?.trim_start().parse().ok()
}

// The number of a node or a gene: numbers begin at 1, and indices at 0.
pub(crate) fn number(index: usize) -> usize {
    index.saturating_add(1)
}

// The number of a parent; 0 is none.
pub(crate) fn parent_number(parent: Option<usize>) -> usize {
    parent.map_or(0, number)
}

// The parent with a number.
pub(crate) fn parent_numbered(number: usize) -> Option<usize> {
    number.checked_sub(1)
}
