// The writer: documents and frequencies in, the bytes of one term's image out. The port of serializer.rs.
// Arrays have a fixed length, and areas and the output are lent, since no heap is used.

#![tactic(auto)]

mod arrays;
mod block;
mod bounds;
mod document;
mod image;
mod list;

ghost use Rattle.std.specs.Prelude.{◌≡◌};
ghost use Rattle.serializer.specs.Calls.{beginning, state_of, Took, Closed};
ghost use Rattle.serializer.specs.Writer as specs;

pub use arrays::{close_term_in, new_term_in, write_doc_in};
use format::Refusal;
pub use list::{ask_list, write_list};

// A term being written. Finished blocks and their entries lie in two areas that the caller lends to each call.
#[derive(Clone, Copy, Debug, PartialEq, Eq)]
pub struct PostingsSerializer {
    // The documents that wait for their block to fill, and their frequencies.
    pub docs: [u32; 128],
    pub freqs: [u32; 128],
    // A number, and no enum, since a lent state may hold any: question 16 refuses those that name nothing.
    pub mode: u8,
    pub recording: bool,
    pub waiting: usize,
    // The last id of the last finished block.
    pub last_doc: u32,
    // How many documents were taken, in blocks and waiting.
    pub taken: u32,
    // How far the entries and the blocks reach in their areas.
    pub skips_at: usize,
    pub postings_at: usize,
}

// Whether a term was begun or a document taken, with the state after it. `Step`, `ClosedTerm` and `ClosedIn` stay three structs, since
// callers name their public fields.
#[derive(Clone, Copy, Debug, PartialEq, Eq)]
pub struct Step {
    pub answer: Result<(), Refusal>,
    pub state: PostingsSerializer,
}

// What closing a term answers, the image's length, with the state after it.
#[derive(Clone, Copy, Debug, PartialEq, Eq)]
pub struct ClosedTerm {
    pub answer: Result<usize, Refusal>,
    pub state: PostingsSerializer,
}

// The numbers of a state, without the documents that wait: what a call on two lent arrays takes and gives. The state has them one by one,
// since callers name its public fields.
#[derive(Clone, Copy, Debug, PartialEq, Eq)]
pub struct Progress {
    // A number, for the same reason as a state's.
    pub mode: u8,
    pub recording: bool,
    pub waiting: usize,
    pub last_doc: u32,
    pub taken: u32,
    pub skips_at: usize,
    pub postings_at: usize,
}

// What closing a term from two lent arrays answers, with the numbers after it.
#[derive(Clone, Copy, Debug, PartialEq, Eq)]
pub struct ClosedIn {
    pub answer: Result<usize, Refusal>,
    pub progress: Progress,
}

// The numbers of a state.
impl From<PostingsSerializer> for Progress {
    ghost use Rattle.std.specs.Prelude.{◌≡◌};
    ghost use Rattle.serializer.specs.Calls.{progress_of_of};

    ghost from_gives = { λ state p. p ≡ progress_of_of state };

    #[tactic(auto, unfolding(crate::specs::Calls::progress_of_of))]
    fn from(state: PostingsSerializer) -> Progress {
        Progress {
            mode: state.mode,
            recording: state.recording,
            waiting: state.waiting,
            last_doc: state.last_doc,
            taken: state.taken,
            skips_at: state.skips_at,
            postings_at: state.postings_at,
        }
    }
}

impl Progress {
    // Puts a state together again, with the two arrays that `from` leaves out.
    #[tactic(auto, unfolding(crate::specs::Calls::state_of))]
    fn with_arrays(self, docs: [u32; 128], freqs: [u32; 128]) -> PostingsSerializer
        ensures { result ≡ state_of self docs freqs }
    {
        PostingsSerializer {
            docs,
            freqs,
            mode: self.mode,
            recording: self.recording,
            waiting: self.waiting,
            last_doc: self.last_doc,
            taken: self.taken,
            skips_at: self.skips_at,
            postings_at: self.postings_at,
        }
    }
}

impl PostingsSerializer {
    // A state that holds no document.
    #[tactic(auto, unfolding(crate::specs::Calls::state_of, crate::specs::Calls::progress_of_of, crate::specs::Writer::fresh))]
    fn fresh(mode: u8, recording: bool) -> PostingsSerializer
        ensures { result ≡ specs.fresh mode recording }
    {
        Progress::fresh(mode, recording).with_arrays([0u32; 128], [0u32; 128])
    }
}

// Begins a term: its mode, 0 or 1, and whether its frequencies are recorded.
#[tactic(auto, unfolding(crate::specs::Calls::beginning, crate::specs::Calls::accepted, crate::specs::Calls::progressed, format::specs::Accepted::begin, format::specs::Basics::ask))]
pub fn new_term(mode: u8, recording: bool) -> Step
    ensures { result ≡ beginning mode recording }
{
    Step {
        answer: new_term_in(mode, recording).map(|_| ()),
        state: PostingsSerializer::fresh(mode, recording),
    }
}

// Takes one document more. One that fills a block has it written into the areas, behind what they hold so far.
pub fn write_doc(
    state: PostingsSerializer,
    doc: u32,
    freq: u32,
    skips: &mut [u8],
    postings: &mut [u8],
) -> Step
    ensures { Took state doc freq skips.old postings.old skips.new postings.new result }
{
    let mut docs = state.docs;
    let mut freqs = state.freqs;
    match write_doc_in(
        state.into(),
        doc,
        freq,
        &mut docs,
        &mut freqs,
        skips,
        postings,
    ) {
        Ok(next) => Step {
            answer: Ok(()),
            state: next.with_arrays(docs, freqs),
        },
        Err(refusal) => Step {
            answer: Err(refusal),
            state,
        },
    }
}

// Closes a term of as many documents as announced: its image goes to the front of the output, and a fresh state is left.
pub fn close_term(
    state: PostingsSerializer,
    announced: u32,
    skips: &[u8],
    postings: &[u8],
    output: &mut [u8],
) -> ClosedTerm
    ensures { Closed state announced skips.now postings.now output.old output.new result }
{
    let closed = close_term_in(
        state.into(),
        announced,
        &state.docs,
        &state.freqs,
        skips,
        postings,
        output,
    );
    // `close_term_in` ends by the same two cases, but with numbers alone; a fresh state has zeros in its arrays too
    ClosedTerm {
        answer: closed.answer,
        state: match closed.answer {
            Ok(_) => PostingsSerializer::fresh(state.mode, state.recording),
            Err(_) => state,
        },
    }
}
