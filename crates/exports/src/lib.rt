// The library for Rust and C: functions of plain numbers and slices. Each answers one number. Modes and flags are bytes, and slices stand
// side by side, since C hands them in; and each name that C calls has a function, also where two differ in one call.

#![tactic(auto)]

mod calls;
mod mark;
mod reading;

ghost use Rattle.std.specs.Prelude.{◌≡◌, length};
ghost use Rattle.serializer.specs.Writer.{Areas};
ghost use Rattle.serializer.specs.Calls.{state_of, ListedAs};
ghost use Rattle.exports.specs.Exports.{ListCoded, DocsCoded, Takes};

use crate::mark::code;
use format::Refusal;
use serializer::{Progress, ask_list, close_term_in, new_term_in, write_doc_in, write_list};

// A whole list: its image's length, or 2 ^ 63 and the refusal's number. Frequencies are recorded where `recording` isn't 0.
#[unsafe(no_mangle)]
pub extern "C" fn vilthorwy_write_list(
    mode: u8,
    recording: u8,
    ids: &[u32],
    freqs: &[u32],
    skips: &mut [u8],
    postings: &mut [u8],
    output: &mut [u8],
) -> u64
    ensures { ListCoded mode recording ids.now freqs.now skips.old postings.old output.old
        skips.new postings.new output.new result }
{
    let written = write_list(mode, recording != 0, ids, freqs, skips, postings, output);
    code(written.map(|n| n as u64))
}

// Hands the documents in one by one, each of which is taken; the numbers behind them. Those that wait for their block stay in two arrays.
fn write_each(
    first: Progress,
    ids: &[u32],
    freqs: &[u32],
    block_docs: &mut [u32; 128],
    block_freqs: &mut [u32; 128],
    skips: &mut [u8],
    postings: &mut [u8],
) -> Progress
    requires { (length ids.now ≡ length freqs.now)
        × ((a : Areas) × Takes (state_of first block_docs.old block_freqs.old) ids.now freqs.now skips.old postings.old a) }
    ensures { Takes (state_of first block_docs.old block_freqs.old) ids.now freqs.now
        skips.old postings.old
        (record { state = state_of result block_docs.new block_freqs.new; skips = skips.new; postings = postings.new }) }
{
    let mut progress = first;
    for (&id, &freq) in ids.iter().zip(freqs) {
        progress = write_doc_in(
            progress,
            id,
            freq,
            block_docs,
            block_freqs,
            skips,
            postings,
        ).unwrap();
    }
    progress
}

// Writes a list by single calls: a term is begun, each document written, and the term closed. Every question is asked before the first of
// them, as for a whole list, with 14 for another count behind the documents' questions, so that a refusal changes nothing.
fn write_term(
    mode: u8,
    recording: bool,
    ids: &[u32],
    freqs: &[u32],
    announced: u32,
    skips: &mut [u8],
    postings: &mut [u8],
    output: &mut [u8],
) -> Result<usize, Refusal>
    ensures { ListedAs mode recording announced ids.now freqs.now skips.old postings.old
        output.old skips.new postings.new output.new result }
{
    ask_list(
        mode,
        recording,
        ids,
        freqs,
        announced as usize,
        skips,
        postings,
        output,
    )?;
    let first = new_term_in(mode, recording)?;
    let mut block_docs = [0u32; 128];
    let mut block_freqs = [0u32; 128];
    let progress = write_each(
        first,
        ids,
        freqs,
        &mut block_docs,
        &mut block_freqs,
        skips,
        postings,
    );
    let closed = close_term_in(
        progress,
        announced,
        &block_docs,
        &block_freqs,
        skips,
        postings,
        output,
    );
    closed.answer
}

// The same by single calls, under an announced count; a refusal changes nothing.
#[unsafe(no_mangle)]
pub extern "C" fn vilthorwy_write_docs(
    mode: u8,
    recording: u8,
    ids: &[u32],
    freqs: &[u32],
    announced: u32,
    skips: &mut [u8],
    postings: &mut [u8],
    output: &mut [u8],
) -> u64
    ensures { DocsCoded mode recording ids.now freqs.now announced
        skips.old postings.old output.old
        skips.new postings.new output.new result }
{
    let written = write_term(
        mode,
        recording != 0,
        ids,
        freqs,
        announced,
        skips,
        postings,
        output,
    );
    code(written.map(|n| n as u64))
}
