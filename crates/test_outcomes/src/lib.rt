// What a call made of its sheet, as the test programs show it: the report and the first words of the scratch, or the refusal's number in six columns and a
// line feed. (A type that displays itself: what a function prints no contract can say.)
#![tactic(auto)]

use answer::Answer;
use std::fmt;

// How many words of the scratch are written: the 35 of sheet K's table, and five that it leaves as they were.
const SHOWN: usize = 40;

// What the scratch is filled with, and the word where a gene has no history from a node: no costs, which are below 1,000,000.
pub const UNTOUCHED: u32 = u32::MAX - 1;

const NO_HISTORY: u32 = u32::MAX;

// What a call answered and left.
#[derive(Clone, Copy)]
pub struct Outcome<'a> {
    pub answer: Answer,
    pub result: &'a [u8],
    pub scratch: &'a [u32],
}

// A word in six columns: '-' and '.' stand for the words that are no costs.
#[derive(Clone, Copy)]
struct Word(u32);

impl fmt::Display for Word {
    fn fmt<W: fmt::Write>(&self, f: &mut fmt::Formatter<W>) -> fmt::Result {
        match self.0 {
            NO_HISTORY => write!(f, "     -"),
            UNTOUCHED => write!(f, "     ."),
            0..1000000 => write!(f, "{:>6}", self.0),
            _ => write!(f, "     ?"),
        }
    }
}

// The first words, ten in a line.
fn write_words<W: fmt::Write>(f: &mut fmt::Formatter<W>, scratch: &[u32]) -> fmt::Result {
    for (i, word) in scratch.iter().take(SHOWN).enumerate() {
        let end = if i % 10 == 9 { '\n' } else { ' ' };
        write!(f, "{}{end}", Word(*word))?;
    }
    Ok(())
}

impl fmt::Display for Outcome<'_> {
    fn fmt<W: fmt::Write>(&self, f: &mut fmt::Formatter<W>) -> fmt::Result {
        match self.answer {
            Ok(bytes) => {
                for byte in self.result.iter().take(bytes) {
                    write!(f, "{}", char::from(*byte))?;
                }
                write_words(f, self.scratch)
            }
            Err(refusal) => writeln!(f, "{:>6}", refusal.number()),
        }
    }
}
