// A whole list read into two lent slices.

ghost use Rattle.std.specs.Prelude.{◌≡◌, ◌+◌, ◌*◌, ◌≤◌, length, take};
ghost use Rattle.format.specs.Basics.{put_at};
ghost use Rattle.segment_postings.specs.Passed.{docs_in_of};
ghost use Rattle.segment_postings.specs.ReadWhole.{Walks, Written, WholeRead, read_whole};

use crate::counts::docs_in;
use crate::layout::{LaidImage, full_blocks, lay_out};
use crate::validate::validate;
use format::{COMPRESSION_BLOCK_SIZE, Refusal, Term};

// Copies a block's values to where they stand among those of all blocks.
#[tactic(auto, using(crate::proofs::Admission::LandingReads::docs_in_most))]
fn put_block(term: Term, block: usize, values: &[u32; 128], out: &mut [u32])
    requires { 128 * block + docs_in_of term block ≤ length out.old }
    ensures { out.new ≡ put_at (128 * block) (take (docs_in_of term block) values.now) out.old }
{
    let n = docs_in(term, block);
    let at = COMPRESSION_BLOCK_SIZE * block;
    out[at..at + n].copy_from_slice(&values[..n]);
}

impl LaidImage<'_> {
    // A walk block by block over an image that was found sound, so that none is refused. It goes as the total's does.
    fn read(&self, docs: &mut [u32], freqs: &mut [u32])
        requires { Walks self.now.term self.now.image.now (length docs.old) (length freqs.old) }
        ensures { Written self.now.term self.now.image.now docs.old freqs.old docs.new freqs.new }
    {
        let blocks = full_blocks(self.term.count);
        let mut ids = [0; 128];
        let mut counts = [0; 128];
        let mut from = self.first_start();
        loop {
            let held = self.land(0, from, &mut ids, &mut counts).unwrap();
            put_block(self.term, from.block, &ids, docs);
            put_block(self.term, from.block, &counts, freqs);
            if blocks <= from.block {
                return;
            }
            from = held.start_behind();
        }
    }
}

// All documents and their frequencies, in order, at the start of both slices: how many. Questions 1 to 9 are asked of the whole image,
// 1 of the requested mode too, and 15 of both slices last; a refusal writes nothing.
pub fn read(image: &[u8], term: Term, docs: &mut [u32], freqs: &mut [u32]) -> Result<u64, Refusal>
    ensures { WholeRead (read_whole term image.now (length docs.old) (length freqs.old))
        docs.old freqs.old docs.new freqs.new result }
{
    let laid = lay_out(image, term)?;
    validate(image, term.mode, term.count)?;
    let count = term.count as usize;
    if docs.len() < count || freqs.len() < count {
        return Err(Refusal::NoRoom);
    }
    laid.read(docs, freqs);
    Ok(count as u64)
}
