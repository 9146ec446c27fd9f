// The reader of one term's image: the blocks and the cursor over their documents. The port of block_segment_postings.rs and
// segment_postings.rs.

#![tactic(auto)]

mod arrays;
mod counts;
mod find;
pub mod layout;
mod lending;
mod load;
mod seeks;
mod segment_postings;
pub mod validate;
mod whole;

pub use crate::arrays::{advance_in, answer_at, open_in};
pub use crate::counts::total;
pub use crate::lending::{advance_by_lending, advance_mut, seek_by_lending, seek_mut};
pub use crate::seeks::{rank, seek, seek_in};
pub use crate::segment_postings::{advance, doc, open, term_freq};
pub use crate::whole::read;
use format::Refusal;

// A position in a list: the block that holds it, unpacked, and the place in that block. Places behind the last document of a list
// hold TERMINATED and frequency 1. The image, its mode and its count are lent to each call and never kept.
#[derive(Clone, Copy, Debug, PartialEq, Eq)]
pub struct SegmentPostings {
    pub docs: [u32; 128],
    // Between the arrays: calls by value were measured faster so.
    pub held: Held,
    pub freqs: [u32; 128],
}

// A cursor without its arrays: what goes through the functions that are lent them.
#[derive(Clone, Copy, Debug, PartialEq, Eq)]
pub struct Held {
    pub place: usize,
    pub block: usize,
    // Where the next block begins in the image.
    pub next: usize,
    // The last id of the held block, TERMINATED in the tail.
    pub last_doc: u32,
    // Blocks unpacked and skip entries read so far.
    pub unpacked: usize,
    pub entries: usize,
}

// Where a seek on two lent arrays came to, and whether its target is the document there. At the end it isn't.
#[derive(Clone, Copy, Debug, PartialEq, Eq)]
pub struct Sought {
    pub held: Held,
    pub hit: bool,
}

// What a call answers: the document and the frequency at the position, blocks unpacked, entries read, and of a seek whether its target is
// the document there. Opening and a step have no target: no.
#[derive(Clone, Copy, Debug, PartialEq, Eq)]
pub struct Answer {
    pub doc: u32,
    pub freq: u32,
    pub unpacked: usize,
    pub entries: usize,
    pub hit: bool,
}

// A call's answer, with the cursor after it, which a refusal leaves as it was. Such pairs are structs of their own (`Went`, the writer's `Step`):
// callers name their fields by what they hold.
#[derive(Clone, Copy, Debug, PartialEq, Eq)]
pub struct Moved {
    pub answer: Result<Answer, Refusal>,
    pub cursor: SegmentPostings,
}
