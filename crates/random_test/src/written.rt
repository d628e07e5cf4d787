// What a call writes into its buffers.
use super::lines::{LINE, Line};

// The least buffers that a call takes, and what they are filled with before.
pub(crate) const RESULT_BYTES: usize = 5952;

pub(crate) const SCRATCH_WORDS: usize = 16129;

pub(crate) const BYTE: u8 = 170;

pub(crate) const WORD: u32 = 2863311530;

// The result and the scratch after a call.
#[derive(Clone, Copy)]
pub(crate) struct Written<'a> {
    pub result: &'a [u8],
    pub scratch: &'a [u32],
}

impl Written<'_> {
    // Whether the result begins with a text, and both buffers are as they were after that and after some words.
    pub(crate) fn holds_only(&self, text: &[u8], words: usize) -> bool {
        let Some(rest) = self.result.strip_prefix(text) else {
            return false;
        };
        rest.iter().all(|byte| *byte == BYTE)
            && self.scratch.iter().skip(words).all(|word| *word == WORD)
    }

    // The whole-network cost of a report: the first number of its second line.
    pub(crate) fn whole(&self) -> Option<usize> {
        let Line([whole, ..]) = Line::read(self.result.chunks_exact(LINE).nth(1)?)?;
        Some(whole)
    }
}
