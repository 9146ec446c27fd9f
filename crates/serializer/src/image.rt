// A term's image: the skip length and the entries where there is a full block, the blocks, and the tail, at the front of the output.

ghost use Rattle.std.specs.Prelude.{◌≡◌, ℕ, ◌+◌, ◌-◌, ◌≤◌, true, List, length, nat_le};
ghost use Rattle.format.specs.SkipEntry.{has_freq_of};
ghost use Rattle.format.specs.Vint.{vints};
ghost use Rattle.format.specs.Written.{only_if, head_of, tail_of_of};
ghost use Rattle.serializer.specs.Calls.{state_of};
ghost use Rattle.serializer.specs.Pieces.{bytes_of, BytesPut, ImagePut};
ghost use Rattle.serializer.specs.Writer.{first_least_of, in_bounds_of, image_of};

use crate::Progress;
use common::{put, within};
use format::{IndexRecordOption, Refusal};
use skip::has_freq;
use vint::{compress_sorted, compress_unsorted, sorted_size, unsorted_size, vint_size, write_vint};

// A term's image in parts: its entries and the bytes of its full blocks, `full` of them, and the documents of its tail, whose first
// difference is taken from `offset`.
#[derive(Clone, Copy)]
pub(crate) struct Image<'a> {
    pub full: usize,
    pub skips: &'a [u8],
    pub postings: &'a [u8],
    pub option: IndexRecordOption,
    pub offset: u32,
    pub docs: &'a [u32],
    pub freqs: &'a [u32],
}

// Whether the parts of an image lie within `len` bytes, one behind the other; no sum of their sizes is made, which might wrap.
fn parts_fit(len: usize, head: usize, postings: usize, docs: usize, freqs: usize) -> bool
    ensures { result ≡ nat_le (head + (postings + (docs + freqs))) len }
{
    head <= len && postings <= len - head && within(docs, freqs, len - head - postings)
}

impl<'a> Image<'a> {
    // How many bytes the skip length and the entries take.
    fn head_size(&self) -> usize
        ensures { result ≡ length (head_of self.now.full self.now.skips.now) }
    {
        if self.full == 0 {
            return 0;
        }
        vint_size(self.skips.len() as u64) + self.skips.len()
    }

    // How many bytes the tail's frequencies take, 0 where they aren't kept.
    fn freqs_size(&self) -> usize
        ensures { result ≡ length (only_if (has_freq_of self.now.option) (vints self.now.freqs.now)) }
    {
        if has_freq(self.option) {
            unsorted_size(self.freqs)
        } else {
            0
        }
    }

    // Whether the image lies within `len` bytes.
    pub(crate) fn fits(&self, len: usize) -> bool
        ensures { result ≡ nat_le (length (bytes_of self.now)) len }
    {
        parts_fit(
            len,
            self.head_size(),
            self.postings.len(),
            sorted_size(self.docs, self.offset),
            self.freqs_size(),
        )
    }

    // Writes the skip length and the entries, which fit, at the front of the output; the place behind them.
    fn put_head(&self, output: &mut [u8]) -> usize
        requires { length (head_of self.now.full self.now.skips.now) ≤ length output.old }
        ensures { BytesPut 0 (head_of self.now.full self.now.skips.now) output.old output.new result }
    {
        if self.full == 0 {
            return 0;
        }
        let at = write_vint(self.skips.len() as u64, output, 0).unwrap();
        put(self.skips, output, at).unwrap()
    }

    // Writes the tail's frequencies, which fit, from a place on; the place behind them.
    fn put_freqs(&self, output: &mut [u8], at: usize) -> usize
        requires { at + length (only_if (has_freq_of self.now.option) (vints self.now.freqs.now)) ≤ length output.old }
        ensures { BytesPut at (only_if (has_freq_of self.now.option) (vints self.now.freqs.now)) output.old output.new result }
    {
        if has_freq(self.option) {
            compress_unsorted(self.freqs, output, at).unwrap()
        } else {
            at
        }
    }

    // Writes the tail, which fits, from a place on, ids before frequencies; the place behind it.
    fn put_tail(&self, output: &mut [u8], at: usize) -> usize
        requires { at + length (tail_of_of self.now.option self.now.offset self.now.docs.now self.now.freqs.now) ≤ length output.old }
        ensures { BytesPut at (tail_of_of self.now.option self.now.offset self.now.docs.now self.now.freqs.now) output.old output.new result }
    {
        let freqs_at = compress_sorted(self.docs, self.offset, output, at).unwrap();
        self.put_freqs(output, freqs_at)
    }

    // Writes the image at the front of the output, where it fits; else nothing is written.
    pub(crate) fn put(&self, output: &mut [u8]) -> Result<usize, Refusal>
        ensures { ImagePut (bytes_of self.now) output.old output.new result }
    {
        if !self.fits(output.len()) {
            return Err(Refusal::NoRoom);
        }
        let postings_at = self.put_head(output);
        let tail_at = put(self.postings, output, postings_at).unwrap();
        Ok(self.put_tail(output, tail_at))
    }
}

impl Progress {
    // The id that a tail's first difference is taken from: the last block's last id, 0 where there is no block.
    fn tail_offset(self) -> u32
        ensures { (docs freqs : List ℕ) → result ≡ first_least_of (state_of self docs freqs) - 1 }
    {
        self.first_least().saturating_sub(1) as u32
    }

    // Writes the image of a state that is in bounds at the front of the output.
    #[tactic(auto, using(crate::proofs::bounds::Question16::few_fit), unfolding(crate::specs::Writer::in_bounds_of))]
    pub(crate) fn put_term(
        self,
        docs: &[u32; 128],
        freqs: &[u32; 128],
        skips: &[u8],
        postings: &[u8],
        output: &mut [u8],
    ) -> Result<usize, Refusal>
        requires { in_bounds_of (state_of self docs.now freqs.now) skips.now postings.now ≡ true }
        ensures { ImagePut (image_of (state_of self docs.now freqs.now) skips.now postings.now)
            output.old output.new result }
    {
        let image = Image {
            full: self.taken as usize / 128,
            skips: &skips[..self.skips_at],
            postings: &postings[..self.postings_at],
            option: self.option(),
            offset: self.tail_offset(),
            docs: &docs[..self.waiting],
            freqs: &freqs[..self.waiting],
        };
        image.put(output)
    }
}
