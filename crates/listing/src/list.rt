// The listing of a table: it is read, written as a posting list, and that list is stepped through.

ghost use Rattle.std.specs.Prelude.{Ok, ◌≡◌, ◌+◌, ◌*◌, ◌≤◌, length};
ghost use Rattle.format.specs.Reading.{reading, docs_of, freqs_of};
ghost use Rattle.listing.specs.Output.{Puts, refusal, steps, listing, listing_of};

use crate::table::read_table;
use crate::text::put_answer;
use common::put;
use format::Term;
use segment_postings::{advance, open};
use serializer::write_list;

// What is lent: an array, since the project has no heap. A function makes it, since of an array that is written where it is lent the
// prover counts the places.
pub(crate) fn area<T: Copy, const N: usize>(zero: T) -> [T; N]
    ensures { length result ≡ N }
{
    [zero; N]
}

// Puts the one line of a refusal.
fn put_refusal(output: &mut [u8]) -> usize
    requires { 8 ≤ length output.old }
    ensures { Puts refusal 0 output.old output.new result }
{
    put(b"refused\n", output, 0).unwrap()
}

// Opens a sound image and steps to its end, and puts the line of each answer. The loop goes over a range: it makes a
// step for each document, and there are no elements to go over.
fn put_steps(image: &[u8], term: Term, output: &mut [u8], at: usize) -> usize
    requires { ((reading term image.now).verdict ≡ Ok tt) × (at + 63 * (term.count + 1) ≤ length output.old) }
    ensures { Puts (steps (docs_of (reading term image.now).blocks) (freqs_of (reading term image.now).blocks))
        at output.old output.new result }
{
    let mut moved = open(image, term);
    let mut next = put_answer(moved.answer, output, at);
    for _ in 0..term.count {
        moved = advance(moved.cursor, image, term);
        next = put_answer(moved.answer, output, next);
    }
    next
}

// Puts the listing of two columns.
fn list_columns(ids: &[u32], freqs: &[u32], output: &mut [u8; 1048576]) -> usize
    requires { length ids.now ≤ 16384 }
    ensures { Puts (listing ids.now freqs.now) 0 output.old output.new result }
{
    // Room for the entries of 128 full blocks at most, 8 bytes each; for the blocks, 1,024 bytes each at most; and for both with the
    // skip length in front, and a tail.
    let mut skips = area::<u8, 1024>(0);
    let mut postings = area::<u8, 131072>(0);
    let mut image = area::<u8, 163840>(0);
    match write_list(1, true, ids, freqs, &mut skips, &mut postings, &mut image) {
        Ok(size) => {
            let next = put(b"doc freq unpacked\n", output, 0).unwrap();
            let term = Term {
                mode: 1,
                requested: 1,
                count: ids.len() as u32,
            };
            put_steps(&image[..size], term, output, next)
        }
        Err(_) => put_refusal(output),
    }
}

// Puts the listing of a table that is given as text.
pub(crate) fn list_table(text: &[u8], output: &mut [u8; 1048576]) -> usize
    ensures { Puts (listing_of text.now) 0 output.old output.new result }
{
    if 65536 < text.len() {
        return put_refusal(output);
    }
    // Columns of the longest table: 65,536 bytes hold fewer rows, of four bytes or more.
    let mut ids = area::<u32, 16384>(0);
    let mut freqs = area::<u32, 16384>(0);
    match read_table(text, &mut ids, &mut freqs) {
        Some(n) => list_columns(&ids[..n], &freqs[..n], output),
        None => put_refusal(output),
    }
}
