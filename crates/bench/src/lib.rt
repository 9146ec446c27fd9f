// For measuring, and for the comparison with the Rust: many seeks on one cursor whose block stays in two arrays, so that no call copies it.
// Modes are bytes, and slices stand side by side, since C hands them in so; the two arrays of a block do, since `open_in` takes them so.

#![tactic(auto)]

ghost use Rattle.std.specs.Prelude.{◌≡◌, ◌≤◌, ◌<◌, ◌∷◌, [], length};
ghost use Rattle.segment_postings.specs.Calls.{cursor_of};
ghost use Rattle.segment_postings.specs.Cursor.{answer_at_of};
ghost use Rattle.bench.specs.Seeks.{slices, room, put_answers, Served, seeks, served_in};

use format::{TERMINATED, Term};
use segment_postings::{Sought, answer_at, open_in, seek_in};

// Stores the answer of a seek at a place of the three slices. The hit is the seek's: `answer_at` has no target and tells none.
#[tactic(auto, using(crate::proofs::Serving::docs_room, crate::proofs::Serving::freqs_room, crate::proofs::Serving::hits_room))]
fn put_answer(
    sought: Sought,
    term: Term,
    block_docs: &[u32; 128],
    block_freqs: &[u32; 128],
    docs: &mut [u32],
    freqs: &mut [u32],
    hits: &mut [u8],
    at: usize,
)
    requires { (sought.held.place < 128) × (at < room (slices docs.old freqs.old hits.old)) }
    ensures { slices docs.new freqs.new hits.new ≡ put_answers at
        (answer_at_of term sought.hit (cursor_of sought.held block_docs.now block_freqs.now) ∷ [])
        (slices docs.old freqs.old hits.old) }
{
    let Sought { held, hit } = sought;
    let answer = answer_at(held, term, block_docs, block_freqs).unwrap();
    docs[at] = answer.doc;
    freqs[at] = answer.freq;
    hits[at] = u8::from(hit);
}

// Opens a list and seeks the targets in order, up to the first refusal: how many were served. The loop goes by places: over the targets
// zipped with the slices' `iter_mut` it was tried, and the proof didn't close.
fn seek_each(
    image: &[u8],
    term: Term,
    targets: &[u32],
    docs: &mut [u32],
    freqs: &mut [u32],
    hits: &mut [u8],
) -> usize
    requires { length targets.now ≤ room (slices docs.old freqs.old hits.old) }
    ensures { Served (seeks image.now term targets.now) (slices docs.old freqs.old hits.old)
        (slices docs.new freqs.new hits.new) result }
{
    let mut block_docs = [TERMINATED; 128];
    let mut block_freqs = [1; 128];
    let Ok(first) = open_in(image, term, &mut block_docs, &mut block_freqs) else {
        return 0;
    };
    let mut held = first;
    for (i, &target) in targets.iter().enumerate() {
        let Ok(sought) = seek_in(held, image, term, target, &mut block_docs, &mut block_freqs)
        else {
            return i;
        };
        put_answer(
            sought,
            term,
            &block_docs,
            &block_freqs,
            docs,
            freqs,
            hits,
            i,
        );
        held = sought.held;
    }
    targets.len()
}

// Opens a list, seeks the targets in order on one cursor and stores each answer at the target's place in the three slices: the document and
// the frequency (at the end TERMINATED and 0), and 1 for a hit, 0 for none. It answers how many were served, up to the first refusal: none
// where a slice is shorter than the targets or opening is refused. Every other place stays as it was.
#[tactic(auto, unfolding(crate::specs::Seeks::room))]
#[unsafe(no_mangle)]
pub extern "C" fn vilthorwy_bench_seeks(
    mode: u8,
    requested: u8,
    count: u32,
    image: &[u8],
    targets: &[u32],
    docs: &mut [u32],
    freqs: &mut [u32],
    hits: &mut [u8],
) -> u64
    ensures { Served (served_in (record { mode = mode; requested = requested; count = count }) image.now targets.now
        (slices docs.old freqs.old hits.old))
        (slices docs.old freqs.old hits.old) (slices docs.new freqs.new hits.new) result }
{
    if docs.len().min(freqs.len()).min(hits.len()) < targets.len() {
        return 0;
    }
    let term = Term {
        mode,
        requested,
        count,
    };
    seek_each(image, term, targets, docs, freqs, hits) as u64
}
