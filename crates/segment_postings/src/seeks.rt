// Seeks, on two lent arrays and by value; what a seek and a step by value share; and the rank, which a fresh cursor's seek finds.

ghost use Rattle.std.specs.Prelude.{Ok, ◌≡◌, ℕ, ◌/◌, ◌<◌, ◌≤◌, true, List, length};
ghost use Rattle.block_search.specs.Search.{search_block_of};
ghost use Rattle.segment_postings.specs.Cursor.{in_bounds_of, at_place, within, behind, seeking, sought, seeking_fresh, ranking};
ghost use Rattle.segment_postings.specs.Called.{called};
ghost use Rattle.segment_postings.specs.Calls.{cursor_of, Leaves, reached, Finds};
ghost use Rattle.segment_postings.specs.Private.{call_by, told_of, untargeted_of, with_answer_of};

use crate::arrays::{advance_in, land_first, leave_whole, shown_at};
use crate::layout::full_blocks;
use crate::{Answer, Held, Moved, SegmentPostings, Sought};
use block_search::{Located, search_block};
use format::{COMPRESSION_BLOCK_SIZE, Refusal, TERMINATED, Term};

// The target's place in the held block, and whether the target stands there. The array of a lent cursor may hold anything, also at the end
// and also TERMINATED before it: neither is a hit. Inlined by hand, as the search and `seek` are, for speed: docs/DECISIONS.md, "Inlined".
#[inline(always)]
fn place_in(held: Held, term: Term, target: u32, docs: &[u32; 128]) -> Sought
    ensures { (freqs : List ℕ) → result ≡ told_of term target (at_place (cursor_of held docs.now freqs) (search_block_of docs.now target)) }
{
    let Located { place, hit } = search_block(docs, target);
    let placed = held.at_place(place);
    Sought {
        held: placed,
        hit: (target < TERMINATED) & hit && !placed.at_end(term),
    }
}

// Seeks in the held block. Values that fit no image may have no place for the target behind the present one: 16.
fn seek_within(held: Held, term: Term, target: u32, docs: &[u32; 128]) -> Result<Sought, Refusal>
    requires { held.block ≤ term.count / 128 }
    ensures { (freqs : List ℕ) → Finds term target (within (cursor_of held docs.now freqs) term target) docs.now freqs docs.now freqs result }
{
    let sought = place_in(held, term, target, docs);
    let place = sought.held.place;
    let there = held.place < place
        && place < COMPRESSION_BLOCK_SIZE
        && target <= docs[place]
        && COMPRESSION_BLOCK_SIZE * held.block + place <= term.count as usize;
    if !there {
        return Err(Refusal::StateBroken);
    }
    Ok(sought)
}

// Seeks behind the held block: the block that the entries lead to, and the target's place in it. Values that fit no image may give the
// tail a last id below the target: 16.
fn seek_behind(
    held: Held,
    image: &[u8],
    term: Term,
    target: u32,
    docs: &mut [u32; 128],
    freqs: &mut [u32; 128],
) -> Result<Sought, Refusal>
    requires { in_bounds_of term (length image.now) held ≡ true }
    ensures { Finds term target (behind (cursor_of held docs.old freqs.old) image.now term target) docs.old freqs.old docs.new freqs.new result }
{
    if full_blocks(term.count) <= held.block {
        return Err(Refusal::StateBroken);
    }
    let landed = leave_whole(held, image, term, target, docs, freqs)?;
    Ok(place_in(landed, term, target, docs))
}

// Seeks to the first document, not before the present one, that is at least the target; if there is none, to the end; and tells whether that
// document is the target. A target above TERMINATED is 10, at the end too; any other changes nothing there.
pub fn seek_in(
    held: Held,
    image: &[u8],
    term: Term,
    target: u32,
    docs: &mut [u32; 128],
    freqs: &mut [u32; 128],
) -> Result<Sought, Refusal>
    ensures { Finds term target (seeking (cursor_of held docs.old freqs.old) image.now term target) docs.old freqs.old docs.new freqs.new result }
{
    if !held.in_bounds(term, image.len()) {
        return Err(Refusal::StateBroken);
    }
    if TERMINATED < target {
        return Err(Refusal::TargetTooLarge);
    }
    if held.at_end(term) {
        return Ok(Sought { held, hit: false });
    }
    let doc = docs[held.place];
    if target <= doc {
        return Ok(Sought {
            held,
            hit: (target < TERMINATED) & (doc == target),
        });
    }
    if target <= held.last_doc {
        return seek_within(held, term, target, docs);
    }
    seek_behind(held, image, term, target, docs, freqs)
}

// An answer with the cursor's numbers after it.
#[derive(Clone, Copy)]
pub(crate) struct Went {
    pub answer: Result<Answer, Refusal>,
    pub held: Held,
}

// Where a call without a target came to: no hit.
#[tactic(auto, unfolding(crate::specs::Private::untargeted_of))]
pub(crate) fn untargeted(reached: Result<Held, Refusal>) -> Result<Sought, Refusal>
    ensures { result ≡ untargeted_of reached }
{
    match reached {
        Ok(held) => Ok(Sought { held, hit: false }),
        Err(refusal) => Err(refusal),
    }
}

// Where a call on lent arrays came to, with its answer; a refusal leaves the numbers as they were.
#[tactic(auto, unfolding(crate::specs::Private::with_answer_of))]
pub(crate) fn with_answer(
    reached: Result<Sought, Refusal>,
    was: Held,
    term: Term,
    docs: &[u32; 128],
    freqs: &[u32; 128],
) -> Went
    requires { (sought : Sought) → reached ≡ Ok sought → sought.held.place < 128 }
    ensures { result ≡ with_answer_of term was docs.now freqs.now reached }
{
    match reached {
        Ok(sought) => Went {
            answer: Ok(shown_at(sought, term, docs, freqs)),
            held: sought.held,
        },
        Err(refusal) => Went {
            answer: Err(refusal),
            held: was,
        },
    }
}

// What a cursor is asked for: the next document, or the first from the present one on that is at least a target.
#[derive(Clone, Copy)]
pub(crate) enum Call {
    Advance,
    Seek(u32),
}

// A step or a seek on a cursor's arrays, with its answer: what both calls by value do. Why the numbers, the image and the term stay three
// parameters, `leave` says.
pub(crate) fn go(
    held: Held,
    image: &[u8],
    term: Term,
    call: Call,
    docs: &mut [u32; 128],
    freqs: &mut [u32; 128],
) -> Went
    ensures { Leaves (called (cursor_of held docs.old freqs.old) image.now term (call_by call)) result.answer (cursor_of result.held docs.new freqs.new) }
{
    let reached = match call {
        Call::Advance => untargeted(advance_in(held, image, term, docs, freqs)),
        Call::Seek(target) => seek_in(held, image, term, target, docs, freqs),
    };
    with_answer(reached, held, term, docs, freqs)
}

// Seeks to the first document, not before the present one, that is at least the target; if there is none, to the end.
#[tactic(auto, unfolding(crate::specs::Called::called, crate::specs::Private::call_by))]
#[inline(always)]
pub fn seek(cursor: SegmentPostings, image: &[u8], term: Term, target: u32) -> Moved
    ensures { result ≡ sought cursor image.now term target }
{
    let mut docs = cursor.docs;
    let mut freqs = cursor.freqs;
    let Went { answer, held } = go(
        cursor.held,
        image,
        term,
        Call::Seek(target),
        &mut docs,
        &mut freqs,
    );
    Moved {
        answer,
        cursor: SegmentPostings { docs, held, freqs },
    }
}

// Where a fresh cursor comes to that seeks once.
fn seek_fresh(image: &[u8], term: Term, target: u32) -> Result<Held, Refusal>
    ensures { result ≡ reached (seeking_fresh image.now term target) }
{
    let mut docs = [0; 128];
    let mut freqs = [0; 128];
    let first = land_first(image, term, &mut docs, &mut freqs)?;
    let sought = seek_in(first, image, term, target, &mut docs, &mut freqs)?;
    Ok(sought.held)
}

// How many documents lie below the target.
pub fn rank(image: &[u8], mode: u8, count: u32, target: u32) -> Result<u64, Refusal>
    ensures { result ≡ ranking mode count image.now target }
{
    if TERMINATED < target {
        return Err(Refusal::TargetTooLarge);
    }
    let term = Term {
        mode,
        requested: 0,
        count,
    };
    let held = seek_fresh(image, term, target)?;
    Ok((COMPRESSION_BLOCK_SIZE * held.block + held.place) as u64)
}
