// What is read of an image: the whole list, a rank, a total, and whether the image is sound.

ghost use Rattle.std.specs.Prelude.{◌≡◌, length};
ghost use Rattle.format.specs.Counts as counts;
ghost use Rattle.format.specs.Reading.{soundness};
ghost use Rattle.segment_postings.specs.Cursor.{ranking};
ghost use Rattle.segment_postings.specs.ReadWhole.{read_whole};
ghost use Rattle.serializer.specs.Calls.{accepted_number};
ghost use Rattle.exports.specs.Exports.{coded};
ghost use Rattle.exports.specs.Reading.{ReadCoded};

use crate::mark::code;
use format::Term;
use segment_postings::validate::validate;
use segment_postings::{rank, read, total};

// All documents and their frequencies, in order, at the start of both slices: how many, or 2 ^ 63 and the refusal's number.
#[unsafe(no_mangle)]
pub extern "C" fn vilthorwy_read(
    mode: u8,
    requested: u8,
    count: u32,
    image: &[u8],
    docs: &mut [u32],
    freqs: &mut [u32],
) -> u64
    ensures { ReadCoded (read_whole (record { mode = mode; requested = requested; count = count }) image.now
        (length docs.old) (length freqs.old))
        docs.old freqs.old docs.new freqs.new result }
{
    let term = Term {
        mode,
        requested,
        count,
    };
    code(read(image, term, docs, freqs))
}

// How many documents lie below the target, or 2 ^ 63 and the refusal's number.
#[unsafe(no_mangle)]
pub extern "C" fn vilthorwy_rank(mode: u8, count: u32, image: &[u8], target: u32) -> u64
    ensures { result ≡ coded (ranking mode count image.now target) }
{
    code(rank(image, mode, count, target))
}

// The sum of their frequencies, or 2 ^ 63 and the refusal's number.
#[unsafe(no_mangle)]
pub extern "C" fn vilthorwy_total(mode: u8, count: u32, image: &[u8], target: u32) -> u64
    ensures { result ≡ coded (counts.total mode count image.now target) }
{
    code(total(image, mode, count, target))
}

// 0 where an image is sound, else the refusal's number: without the mark of `code`, since no other number is asked for.
#[tactic(auto, unfolding(serializer::specs::Calls::accepted_number))]
#[unsafe(no_mangle)]
pub extern "C" fn vilthorwy_validate(mode: u8, count: u32, image: &[u8]) -> u64
    ensures { result ≡ accepted_number (soundness mode count image.now) }
{
    match validate(image, mode, count) {
        Ok(()) => 0,
        Err(refusal) => refusal.number() as u64,
    }
}
