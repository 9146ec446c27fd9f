// A list written.

use crate::telling::{tell_refusal, tell_value};
use postings::{
    Refusal, ask_list, close_term, close_term_in, new_term, new_term_in, write_doc, write_doc_in,
    write_list,
};
use std::io;

// A whole list, mode 1, frequencies recorded: whether it would be accepted under an announced count of 3, and the image's length. A
// refusal changes nothing.
pub(crate) fn write_whole(rt: &impl Print, output: &mut [u8]) -> io::Result<usize> {
    let ids = [3, 7, 300];
    let freqs = [1, 2, 130];
    let mut skips = [0u8; 8];
    let mut postings = [0u8; 1008];
    let accepted = ask_list(1, true, &ids, &freqs, 3, &skips, &postings, output);
    tell_accepted(rt, accepted)?;
    match write_list(1, true, &ids, &freqs, &mut skips, &mut postings, output) {
        Ok(n) => Ok(n),
        Err(refusal) => {
            tell_refusal(rt, refusal)?;
            Ok(0)
        }
    }
}

// Whether a call took what it was handed, or would.
fn tell_accepted(rt: &impl Print, accepted: Result<(), Refusal>) -> io::Result<()> {
    tell_value(rt, "taken", accepted.map(|()| 1))
}

// The same document by document: a state goes from call to call. A document that is refused, here the second 3, isn't taken, and
// the next call goes on from the state that came back.
pub(crate) fn write_each(rt: &impl Print, output: &mut [u8]) -> io::Result<()> {
    let mut skips = [0u8; 8];
    let mut postings = [0u8; 1008];
    let begun = new_term(1, true);
    let step = write_doc(begun.state, 3, 1, &mut skips, &mut postings);
    tell_accepted(rt, step.answer)?;
    let step = write_doc(step.state, 3, 1, &mut skips, &mut postings);
    tell_accepted(rt, step.answer)?;
    let step = write_doc(step.state, 7, 2, &mut skips, &mut postings);
    let step = write_doc(step.state, 300, 130, &mut skips, &mut postings);
    let closed = close_term(step.state, 3, &skips, &postings, output);
    tell_written(rt, closed.answer)
}

// An image's length, or the refusal's number.
fn tell_written(rt: &impl Print, answer: Result<usize, Refusal>) -> io::Result<()> {
    tell_value(rt, "bytes", answer.map(|n| n as u64))
}

// The same with two arrays of the caller's own, in which documents wait, and the state's numbers beside them: no call copies a state. A
// document that is refused leaves the numbers as they were.
pub(crate) fn write_on_arrays(rt: &impl Print, output: &mut [u8]) -> io::Result<()> {
    let mut docs = [0u32; 128];
    let mut freqs = [0u32; 128];
    let mut skips = [0u8; 8];
    let mut postings = [0u8; 1008];
    let mut progress = match new_term_in(1, true) {
        Ok(first) => first,
        Err(refusal) => return tell_refusal(rt, refusal),
    };
    for (doc, freq) in [(3, 1), (7, 2), (300, 130)] {
        let next = write_doc_in(
            progress,
            doc,
            freq,
            &mut docs,
            &mut freqs,
            &mut skips,
            &mut postings,
        );
        tell_accepted(rt, next.map(|_| ()))?;
        progress = next.unwrap_or(progress);
    }
    let closed = close_term_in(progress, 3, &docs, &freqs, &skips, &postings, output);
    tell_written(rt, closed.answer)
}
