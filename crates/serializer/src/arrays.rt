// The writer on two lent arrays: beginning a term, one document more and closing, with the state's numbers by value. Calls on a whole
// state take it apart, lend its arrays and put it together again; loops over many calls use these functions and copy no array.

ghost use Rattle.std.specs.Prelude.{◌≡◌};
ghost use Rattle.format.specs.Accepted.{begin};
ghost use Rattle.serializer.specs.Calls.{progress_of_of, progressed, state_of, TookIn, ClosedFrom};
ghost use Rattle.serializer.specs.Pieces.{TermClosed};
ghost use Rattle.serializer.specs.Writer.{fresh};

use crate::{ClosedIn, Progress};
use format::Refusal;
use skip::known_mode;

impl Progress {
    // The numbers of a state that holds no document.
    #[tactic(auto, unfolding(crate::specs::Writer::fresh, crate::specs::Calls::progress_of_of))]
    pub(crate) fn fresh(mode: u8, recording: bool) -> Progress
        ensures { result ≡ progress_of_of (fresh mode recording) }
    {
        Progress {
            mode,
            recording,
            waiting: 0,
            last_doc: 0,
            taken: 0,
            skips_at: 0,
            postings_at: 0,
        }
    }

    // Questions 16 and 14, and then the image, where it fits.
    fn close(
        self,
        announced: u32,
        docs: &[u32; 128],
        freqs: &[u32; 128],
        skips: &[u8],
        postings: &[u8],
        output: &mut [u8],
    ) -> Result<usize, Refusal>
        ensures { TermClosed (state_of self docs.now freqs.now) announced skips.now postings.now
            output.old output.new result }
    {
        if !self.in_bounds(docs, freqs, skips.len(), postings.len()) {
            return Err(Refusal::StateBroken);
        }
        if self.taken != announced {
            return Err(Refusal::CountMismatch);
        }
        self.put_term(docs, freqs, skips, postings, output)
    }
}

// Begins a term: its mode, 0 or 1, and whether its frequencies are recorded. A caller may hand in any number as the mode: question 1 refuses
// the others, which an enum would leave to callers. What the arrays hold doesn't matter.
#[tactic(auto, unfolding(crate::specs::Calls::progressed, format::specs::Accepted::begin, format::specs::Basics::ask))]
pub fn new_term_in(mode: u8, recording: bool) -> Result<Progress, Refusal>
    ensures { result ≡ progressed (λ _. fresh mode recording) (begin mode recording) }
{
    if !known_mode(mode) {
        return Err(Refusal::UnknownMode);
    }
    Ok(Progress::fresh(mode, recording))
}

// Takes one document more: it waits in the arrays. One that fills a block has it written into the areas, behind what they hold so far.
pub fn write_doc_in(
    progress: Progress,
    doc: u32,
    freq: u32,
    docs: &mut [u32; 128],
    freqs: &mut [u32; 128],
    skips: &mut [u8],
    postings: &mut [u8],
) -> Result<Progress, Refusal>
    ensures { TookIn (state_of progress docs.old freqs.old) doc freq skips.old postings.old
        docs.new freqs.new skips.new postings.new result }
{
    progress.may_take(doc, freq, docs, freqs, skips.len(), postings.len())?;
    let waiting = progress.waiting;
    if 127 <= waiting {
        return progress.fill_block(doc, freq, docs, freqs, skips, postings);
    }
    docs[waiting] = doc;
    freqs[waiting] = freq;
    Ok(progress.one_more())
}

// Closes a term of as many documents as announced: its image goes to the front of the output, and the numbers of a fresh state are left.
pub fn close_term_in(
    progress: Progress,
    announced: u32,
    docs: &[u32; 128],
    freqs: &[u32; 128],
    skips: &[u8],
    postings: &[u8],
    output: &mut [u8],
) -> ClosedIn
    ensures { ClosedFrom (state_of progress docs.now freqs.now) announced skips.now postings.now
        output.old output.new result }
{
    let answer = progress.close(announced, docs, freqs, skips, postings, output);
    ClosedIn {
        answer,
        progress: match answer {
            Ok(_) => Progress::fresh(progress.mode, progress.recording),
            Err(_) => progress,
        },
    }
}
