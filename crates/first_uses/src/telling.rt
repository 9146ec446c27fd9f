// What is printed of an answer.

use postings::{Answer, Refusal};
use std::io;

// A word and a number on a line.
pub(crate) fn tell(rt: &impl Print, word: &str, number: u64) -> io::Result<()> {
    println!(rt; "{word} {number}")
}

// A refusal's number.
pub(crate) fn tell_refusal(rt: &impl Print, refusal: Refusal) -> io::Result<()> {
    tell(rt, "refused", refusal.number() as u64)
}

// What a call on a cursor answers.
pub(crate) fn tell_answer(rt: &impl Print, answer: Result<Answer, Refusal>) -> io::Result<()> {
    match answer {
        Ok(at) => {
            tell(rt, "document", at.doc as u64)?;
            tell(rt, "frequency", at.freq as u64)?;
            tell(rt, "unpacked", at.unpacked as u64)?;
            tell(rt, "entries", at.entries as u64)?;
            tell(rt, "hit", u64::from(at.hit))
        }
        Err(refusal) => tell_refusal(rt, refusal),
    }
}

// A number that a call answers, or its refusal.
pub(crate) fn tell_value(
    rt: &impl Print,
    word: &str,
    value: Result<u64, Refusal>,
) -> io::Result<()> {
    match value {
        Ok(n) => tell(rt, word, n),
        Err(refusal) => tell_refusal(rt, refusal),
    }
}
