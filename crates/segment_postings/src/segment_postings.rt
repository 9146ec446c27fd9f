// The cursor over a list's documents, by value: opening, the step, and the document and the frequency at its position.

ghost use Rattle.std.specs.Prelude.{◌≡◌};
ghost use Rattle.segment_postings.specs.Cursor.{blank, opened, advanced, value_at, doc_at, freq_at};

use crate::arrays::open_in;
use crate::seeks::{Call, Went, go, untargeted, with_answer};
use crate::{Held, Moved, SegmentPostings};
use format::{COMPRESSION_BLOCK_SIZE, Refusal, TERMINATED, Term};

// A cursor of no list: 128 places that hold TERMINATED, with frequency 1. It is at none of them, so that every call on it is refused.
#[tactic(auto, unfolding(crate::specs::Cursor::blank))]
fn blank() -> SegmentPostings
    ensures { result ≡ blank }
{
    SegmentPostings {
        // Document 01 names this form.
        docs: [2147483647; 128],
        held: Held {
            place: COMPRESSION_BLOCK_SIZE,
            block: 0,
            next: 0,
            last_doc: 0,
            unpacked: 0,
            entries: 0,
        },
        freqs: [1; 128],
    }
}

// Opens a list at its first document.
pub fn open(image: &[u8], term: Term) -> Moved
    ensures { result ≡ opened image.now term }
{
    let blank = blank();
    let mut docs = blank.docs;
    let mut freqs = blank.freqs;
    let reached = untargeted(open_in(image, term, &mut docs, &mut freqs));
    let Went { answer, held } = with_answer(reached, blank.held, term, &docs, &freqs);
    Moved {
        answer,
        cursor: SegmentPostings { docs, held, freqs },
    }
}

// Steps to the next document; at the end nothing changes.
#[tactic(auto, unfolding(crate::specs::Called::called, crate::specs::Private::call_by))]
pub fn advance(cursor: SegmentPostings, image: &[u8], term: Term) -> Moved
    ensures { result ≡ advanced cursor image.now term }
{
    let mut docs = cursor.docs;
    let mut freqs = cursor.freqs;
    let Went { answer, held } = go(
        cursor.held,
        image,
        term,
        Call::Advance,
        &mut docs,
        &mut freqs,
    );
    Moved {
        answer,
        cursor: SegmentPostings { docs, held, freqs },
    }
}

// What stands at the position among 128 values, `end` at the end: the cursor's numbers decide.
fn value_at(
    values: &[u32; 128],
    end: u32,
    held: Held,
    image: &[u8],
    term: Term,
) -> Result<u64, Refusal>
    ensures { result ≡ value_at values.now end held image.now term }
{
    if !held.in_bounds(term, image.len()) {
        return Err(Refusal::StateBroken);
    }
    if held.at_end(term) {
        return Ok(end as u64);
    }
    Ok(values[held.place] as u64)
}

// The document at the position, TERMINATED at the end. It and the next are public calls by one function. The array is copied apart, so that
// the compiler doesn't copy the whole cursor to lend it.
#[tactic(auto, unfolding(crate::specs::Cursor::doc_at))]
pub fn doc(cursor: SegmentPostings, image: &[u8], term: Term) -> Result<u64, Refusal>
    ensures { result ≡ doc_at cursor image.now term }
{
    let docs = cursor.docs;
    value_at(&docs, TERMINATED, cursor.held, image, term)
}

// The frequency at the position, 0 at the end.
#[tactic(auto, unfolding(crate::specs::Cursor::freq_at))]
pub fn term_freq(cursor: SegmentPostings, image: &[u8], term: Term) -> Result<u64, Refusal>
    ensures { result ≡ freq_at cursor image.now term }
{
    let freqs = cursor.freqs;
    value_at(&freqs, 0, cursor.held, image, term)
}
