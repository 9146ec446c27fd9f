// What the definitions of `specs/` share with code: constants, and the types of fields and of refusals.

#![tactic(auto)]

mod refusal;

pub use crate::refusal::Refusal;

// The document answered at the end of a list; every id lies below it. Document 01 calls it END.
pub const TERMINATED: u32 = 2147483647;

// How many documents a full block holds.
pub const COMPRESSION_BLOCK_SIZE: usize = 128;

// What a list's blocks and skip entries hold.
#[derive(Clone, Copy, Debug, PartialEq, Eq)]
pub enum IndexRecordOption {
    // Documents alone.
    Basic,
    // Documents and their frequencies.
    WithFreqs,
}

// What a skip entry says of its block.
#[derive(Clone, Copy, Debug, PartialEq, Eq)]
pub struct BlockInfo {
    pub last_doc: u32,
    pub doc_width: u8,
    pub strict: bool,
    pub freq_width: u8,
}

// What is known of an image beside its bytes: its recorded mode and its count; and the mode that a reader requests. Modes are numbers, and
// no enum, since a caller may hand in any: question 1 refuses those that name nothing.
#[derive(Clone, Copy, Debug, PartialEq, Eq)]
pub struct Term {
    pub mode: u8,
    pub requested: u8,
    pub count: u32,
}

// Where the parts of an image begin, and what its blocks and entries hold.
#[derive(Clone, Copy, Debug, PartialEq, Eq)]
pub struct Layout {
    pub option: IndexRecordOption,
    pub skips: usize,
    pub postings: usize,
}
