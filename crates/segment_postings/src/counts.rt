// Total: the sum of the frequencies of the documents below a target.

ghost use Rattle.std.specs.Prelude.{◌≡◌, ◌≤◌, length, take};
ghost use Rattle.format.specs.Counts.{total_in, total};
ghost use Rattle.format.specs.Reading.{reading};
ghost use Rattle.segment_postings.specs.Passed.{FrontOf, docs_in_of};

use crate::layout::{LaidImage, full_blocks, lay_out};
use format::{COMPRESSION_BLOCK_SIZE, Refusal, TERMINATED, Term};

// The documents at the front of a block that lie below a target: the sum of their frequencies, and whether they are all of its. Both
// are told in either case, so that it is no `Option`.
#[derive(Clone, Copy)]
struct Front {
    freqs: u64,
    whole: bool,
}

// Adds up frequencies, document by document, up to the first document at or above the target.
fn front_below(docs: &[u32], freqs: &[u32], target: u32) -> Front
    requires { (length docs.now ≤ 128) × (length docs.now ≤ length freqs.now) }
    ensures { FrontOf docs.now freqs.now target result }
{
    let mut passed = 0;
    for (&doc, &freq) in docs.iter().zip(freqs) {
        if target <= doc {
            return Front {
                freqs: passed,
                whole: false,
            };
        }
        passed += freq as u64;
    }
    Front {
        freqs: passed,
        whole: true,
    }
}

// How many documents a block holds.
#[tactic(auto, unfolding(crate::specs::Passed::docs_in_of, format::specs::Layout::full_blocks_of, format::specs::Layout::tail_length))]
pub(crate) fn docs_in(term: Term, block: usize) -> usize
    ensures { result ≡ docs_in_of term block }
{
    if block < full_blocks(term.count) {
        return COMPRESSION_BLOCK_SIZE;
    }
    term.count as usize % COMPRESSION_BLOCK_SIZE
}

// The documents at the front of a block that two arrays hold.
#[tactic(auto, using(crate::proofs::Admission::LandingReads::docs_in_most))]
fn block_below(
    term: Term,
    block: usize,
    docs: &[u32; 128],
    freqs: &[u32; 128],
    target: u32,
) -> Front
    ensures { FrontOf (take (docs_in_of term block) docs.now) (take (docs_in_of term block) freqs.now) target result }
{
    let n = docs_in(term, block);
    front_below(&docs[..n], &freqs[..n], target)
}

impl LaidImage<'_> {
    // A walk block by block to the first document at or above the target. Where the next block begins only the landing on this one says, so no
    // range or iterator goes over them. `read` walks alike, but does something else with a block and has no other end.
    fn total(&self, target: u32) -> Result<u64, Refusal>
        ensures { result ≡ total_in target (reading self.now.term self.now.image.now) }
    {
        let blocks = full_blocks(self.term.count);
        let mut docs = [0; 128];
        let mut freqs = [0; 128];
        let mut from = self.first_start();
        let mut passed = 0;
        loop {
            let held = self.land(0, from, &mut docs, &mut freqs)?;
            let front = block_below(self.term, from.block, &docs, &freqs, target);
            passed += front.freqs;
            if !front.whole || blocks <= from.block {
                return Ok(passed);
            }
            from = held.start_behind();
        }
    }
}

// The sum of the frequencies of the documents below the target, in a walk with frequencies requested.
pub fn total(image: &[u8], mode: u8, count: u32, target: u32) -> Result<u64, Refusal>
    ensures { result ≡ total mode count image.now target }
{
    if TERMINATED < target {
        return Err(Refusal::TargetTooLarge);
    }
    let term = Term {
        mode,
        requested: 1,
        count,
    };
    lay_out(image, term)?.total(target)
}
