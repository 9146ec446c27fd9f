// An image read.

use crate::telling::{tell, tell_answer, tell_refusal, tell_value};
use postings::{
    ANSWER_NUMBERS, Answer, Held, Refusal, SegmentPostings, TERMINATED, Term, advance,
    advance_by_lending, advance_in, answer_at, doc, open, open_in, posting_bytes, rank, read,
    run_calls, seek, seek_by_lending, seek_in, skip_bytes, term_freq, total, validate,
};
use std::io;

// One above the largest target that a seek takes.
const MISTYPED: u32 = 2147483648;

// A cursor by value: the first document, the next, the first at or above 8, which isn't 8 itself, 300 itself, and what stands there.
pub(crate) fn walk(rt: &impl Print, image: &[u8], term: Term) -> io::Result<()> {
    let opened = open(image, term);
    tell_answer(rt, opened.answer)?;
    let moved = advance(opened.cursor, image, term);
    tell_answer(rt, moved.answer)?;
    let moved = seek(moved.cursor, image, term, 8);
    tell_answer(rt, moved.answer)?;
    let moved = seek(moved.cursor, image, term, 300);
    tell_answer(rt, moved.answer)?;
    let found = doc(moved.cursor, image, term);
    tell_value(rt, "doc", found)?;
    let found = term_freq(moved.cursor, image, term);
    tell_value(rt, "term_freq", found)
}

// The same calls made on a lent cursor: these take it by value, lend it and hand it back.
pub(crate) fn walk_lent(rt: &impl Print, image: &[u8], term: Term) -> io::Result<()> {
    let opened = open(image, term);
    let moved = advance_by_lending(opened.cursor, image, term);
    tell_answer(rt, moved.answer)?;
    let moved = seek_by_lending(moved.cursor, image, term, 300);
    tell_answer(rt, moved.answer)
}

// A step and a seek on the caller's own two arrays, from the first document on: what stands where each came to, and whether 300 is there.
fn step_and_seek(image: &[u8], term: Term) -> Result<(Answer, Answer), Refusal> {
    let mut docs = [TERMINATED; 128];
    let mut freqs = [1; 128];
    let held = open_in(image, term, &mut docs, &mut freqs)?;
    let held = advance_in(held, image, term, &mut docs, &mut freqs)?;
    let stepped = answer_at(held, term, &docs, &freqs)?;
    let sought = seek_in(held, image, term, 300, &mut docs, &mut freqs)?;
    let there = answer_at(sought.held, term, &docs, &freqs)?;
    // `answer_at` has no target; the seek told its hit.
    let found = Answer {
        hit: sought.hit,
        ..there
    };
    Ok((stepped, found))
}

// No cursor is copied where the caller holds its arrays, and its numbers beside them.
pub(crate) fn walk_arrays(rt: &impl Print, image: &[u8], term: Term) -> io::Result<()> {
    match step_and_seek(image, term) {
        Ok((stepped, sought)) => {
            tell_answer(rt, Ok(stepped))?;
            tell_answer(rt, Ok(sought))
        }
        Err(refusal) => tell_refusal(rt, refusal),
    }
}

// Such a target by value and on a lent cursor, and the document at which the cursor is left.
fn mistype_from(
    rt: &impl Print,
    cursor: SegmentPostings,
    image: &[u8],
    term: Term,
) -> io::Result<()> {
    let moved = seek(cursor, image, term, MISTYPED);
    tell_answer(rt, moved.answer)?;
    let moved = seek_by_lending(moved.cursor, image, term, MISTYPED);
    tell_answer(rt, moved.answer)?;
    let found = doc(moved.cursor, image, term);
    tell_value(rt, "doc", found)
}

// It is refused, at the first document and at the end, and the cursor stays where it was.
pub(crate) fn mistype(rt: &impl Print, image: &[u8], term: Term) -> io::Result<()> {
    let opened = open(image, term);
    mistype_from(rt, opened.cursor, image, term)?;
    let ended = seek(opened.cursor, image, term, TERMINATED);
    mistype_from(rt, ended.cursor, image, term)
}

// The same on two arrays, and what stands there after the refusal.
fn mistype_on(
    rt: &impl Print,
    held: Held,
    image: &[u8],
    term: Term,
    docs: &mut [u32; 128],
    freqs: &mut [u32; 128],
) -> io::Result<()> {
    let reached = seek_in(held, image, term, MISTYPED, docs, freqs);
    tell_value(rt, "reached", reached.map(|_| 0))?;
    tell_answer(rt, answer_at(held, term, docs, freqs))
}

// The same at the first document and at the end, on two arrays of the caller's own.
pub(crate) fn mistype_arrays(rt: &impl Print, image: &[u8], term: Term) -> io::Result<()> {
    let mut docs = [TERMINATED; 128];
    let mut freqs = [1; 128];
    let first = match open_in(image, term, &mut docs, &mut freqs) {
        Ok(held) => held,
        Err(refusal) => return tell_refusal(rt, refusal),
    };
    mistype_on(rt, first, image, term, &mut docs, &mut freqs)?;
    let end = match seek_in(first, image, term, TERMINATED, &mut docs, &mut freqs) {
        Ok(sought) => sought.held,
        Err(refusal) => return tell_refusal(rt, refusal),
    };
    mistype_on(rt, end, image, term, &mut docs, &mut freqs)
}

// Documents and occurrences below 300; whether the image is sound, 0 where it is; and its parts.
pub(crate) fn ask(rt: &impl Print, image: &[u8]) -> io::Result<()> {
    tell_value(rt, "rank", rank(image, 1, 3, 300))?;
    tell_value(rt, "total", total(image, 1, 3, 300))?;
    tell_value(rt, "validate", validate(image, 1, 3).map(|()| 0))?;
    let skips = skip_bytes(image, 3);
    tell(rt, "skip_bytes", skips.len() as u64)?;
    let blocks = posting_bytes(image, 3);
    tell(rt, "posting_bytes", blocks.len() as u64)
}

// The whole list into two slices of at least `count` places.
pub(crate) fn list_all(rt: &impl Print, image: &[u8], term: Term) -> io::Result<()> {
    let mut docs = [0u32; 3];
    let mut freqs = [0u32; 3];
    let read = read(image, term, &mut docs, &mut freqs);
    tell_value(rt, "read", read)
}

// A list of calls in one, coded as numbers: a seek to 300 and a step. Opening and both are answered.
pub(crate) fn call_all(rt: &impl Print, image: &[u8], term: Term) -> io::Result<()> {
    let calls = [4294967296 + 300, 0];
    let mut answers = [0u64; 3 * ANSWER_NUMBERS];
    let n = run_calls(image, term, &calls, &mut answers);
    tell(rt, "run_calls", n as u64)
}
