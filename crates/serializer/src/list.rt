// A whole list in one call. All questions are asked before a byte is written, so that a refusal leaves everything lent as it was.

ghost use Rattle.std.specs.Prelude.{◌≡◌, ◌*◌, ◌/◌, ◌≤◌, true, length, take};
ghost use Rattle.format.specs.Bitpacking.{width};
ghost use Rattle.format.specs.SkipEntry.{entry_size_of};
ghost use Rattle.format.specs.Accepted.{kept_in, take_docs, written};
ghost use Rattle.std.specs.Result.{IfOk};
ghost use Rattle.format.specs.Written.{doc_values, freq_values, block_of, image_from};
ghost use Rattle.serializer.specs.Writer.{announcing};
ghost use Rattle.serializer.specs.Calls.{accepted, Listed};
ghost use Rattle.serializer.specs.Pieces.{bytes_of};
ghost use Rattle.serializer.specs.Whole.{Checked, ListSized, TailOf, full_blocks_of, blocks_fit, list_fits_of, BlocksPut, ListPut};

use crate::block::{Places, last_of, write_block};
use crate::document::ask_doc;
use crate::image::Image;
use bitpacking::num_bits;
use compression::compressed_block_size;
use compression::values::{reduce_docs, reduce_freqs};
use format::{IndexRecordOption, Refusal};
use skip::{entry_size, has_freq, known_mode, record_option};

// The bytes of a list's entries and of its full blocks.
#[derive(Clone, Copy)]
struct Sizes {
    entries: usize,
    blocks: usize,
}

// Behind how many full blocks a list's tail begins, at which place, and the last id before it, 0 where there is none.
#[derive(Clone, Copy)]
struct Tail {
    full: usize,
    at: usize,
    offset: u32,
}

// A list that passed questions 11 to 14, and what is kept of it.
#[derive(Clone, Copy)]
struct WholeList<'a> {
    option: IndexRecordOption,
    ids: &'a [u32],
    freqs: &'a [u32],
    ghost checked: { Checked ids.now freqs.now },
}

// Questions 11 to 13, document by document; the least id that may come behind them.
fn check_docs(option: IndexRecordOption, ids: &[u32], freqs: &[u32]) -> Result<u64, Refusal>
    requires { length ids.now ≡ length freqs.now }
    ensures { result ≡ take_docs option 0 ids.now freqs.now }
{
    let mut least = 0u64;
    for (&doc, &freq) in ids.iter().zip(freqs) {
        least = ask_doc(option, least, doc, freq)?;
    }
    Ok(least)
}

// Questions 1, 14 of slices of different length, and 11 to 13. The mode is any number that a caller hands in, and is asked about here.
fn ask_docs<'a>(
    mode: u8,
    recording: bool,
    ids: &'a [u32],
    freqs: &'a [u32],
) -> Result<WholeList<'a>, Refusal>
    ensures answer { accepted result ≡ accepted (written mode recording ids.now freqs.now) }
    ensures list { IfOk result (λ l. (l.option ≡ kept_in mode recording) × (l.ids.now ≡ ids.now) × (l.freqs.now ≡ freqs.now)) }
{
    if !known_mode(mode) {
        return Err(Refusal::UnknownMode);
    }
    if ids.len() != freqs.len() {
        return Err(Refusal::CountMismatch);
    }
    let option = record_option(mode, recording);
    check_docs(option, ids, freqs)?;
    Ok(WholeList { option, ids, freqs })
}

// The width of a block's document values.
#[tactic(auto, unfolding(format::specs::Written::doc_values))]
fn docs_width(ids: &[u32; 128], least: u32) -> u8
    ensures { result ≡ width (doc_values least ids.now) }
{
    let mut block = *ids;
    reduce_docs(&mut block, least);
    num_bits(&block)
}

// The width of its frequency values, 0 where frequencies aren't kept: then none is reduced, as `freq_width` of reduced values would want.
#[tactic(auto, unfolding(format::specs::Written::freq_values, format::specs::Written::only_if, format::specs::Bitpacking::width, format::specs::Bitpacking::bits_f, format::specs::Bitpacking::largest, format::specs::Basics::choose))]
fn freqs_width(option: IndexRecordOption, freqs: &[u32; 128]) -> u8
    ensures { result ≡ width (freq_values option freqs.now) }
{
    if !has_freq(option) {
        return 0;
    }
    let mut block = *freqs;
    reduce_freqs(&mut block);
    num_bits(&block)
}

// The bytes of a block.
fn block_size(option: IndexRecordOption, least: u32, ids: &[u32; 128], freqs: &[u32; 128]) -> usize
    ensures { result ≡ length (block_of option least ids.now freqs.now) }
{
    compressed_block_size(docs_width(ids, least) + freqs_width(option, freqs))
}

impl<'a> WholeList<'a> {
    // The bytes of all full blocks.
    fn blocks_size(&self) -> usize
        ensures { result ≡ length (full_blocks_of self.now.option self.now.ids.now self.now.freqs.now).postings }
    {
        let mut size = 0;
        let mut least = 0u32;
        for (docs, freqs) in self.ids.as_chunks().0.iter().zip(self.freqs.as_chunks().0) {
            size += block_size(self.option, least, docs, freqs);
            least = docs[127] + 1;
        }
        size
    }

    // The bytes of their entries.
    fn entries_size(&self) -> usize
        ensures { result ≡ entry_size_of self.now.option * (length self.now.ids.now / 128) }
    {
        entry_size(self.option) * (self.ids.len() / 128)
    }

    fn sizes(&self) -> Sizes
        ensures { ListSized self.now.option self.now.ids.now self.now.freqs.now result }
    {
        Sizes {
            entries: self.entries_size(),
            blocks: self.blocks_size(),
        }
    }

    // Where the tail begins.
    fn tail(&self) -> Tail
        ensures { TailOf self.now.ids.now result }
    {
        let full = self.ids.len() / 128;
        let at = 128 * full;
        let offset = last_of(&self.ids[..at]);
        Tail { full, at, offset }
    }

    // The image of the entries and the full blocks at the fronts of their areas and of the tail.
    fn image<'b>(&'b self, sizes: Sizes, skips: &'b [u8], postings: &'b [u8]) -> Image<'b>
        requires { (sizes.entries ≤ length skips.now) × (sizes.blocks ≤ length postings.now) }
        ensures { bytes_of result ≡ image_from self.now.option self.now.ids.now self.now.freqs.now
            (take sizes.entries skips.now) (take sizes.blocks postings.now) }
    {
        let tail = self.tail();
        Image {
            full: tail.full,
            skips: &skips[..sizes.entries],
            postings: &postings[..sizes.blocks],
            option: self.option,
            offset: tail.offset,
            docs: &self.ids[tail.at..],
            freqs: &self.freqs[tail.at..],
        }
    }

    // Question 15, of the sizes.
    fn fits(&self, sizes: Sizes, skips: &[u8], postings: &[u8], len: usize) -> bool
        requires { ListSized self.now.option self.now.ids.now self.now.freqs.now sizes }
        ensures { result ≡ list_fits_of self.now.option self.now.ids.now self.now.freqs.now skips.now postings.now len }
    {
        sizes.entries <= skips.len()
            && sizes.blocks <= postings.len()
            && self.image(sizes, skips, postings).fits(len)
    }

    // Question 15.
    fn has_room(&self, skips: &[u8], postings: &[u8], len: usize) -> bool
        ensures { result ≡ list_fits_of self.now.option self.now.ids.now self.now.freqs.now skips.now postings.now len }
    {
        self.fits(self.sizes(), skips, postings, len)
    }

    // Writes all full blocks and their entries, which fit.
    fn write_blocks(&self, skips: &mut [u8], postings: &mut [u8])
        requires { blocks_fit self.now.option self.now.ids.now self.now.freqs.now skips.old postings.old ≡ true }
        ensures { BlocksPut self.now.option self.now.ids.now self.now.freqs.now
            skips.old postings.old skips.new postings.new }
    {
        let mut least = 0u32;
        let mut at = Places {
            skips: 0,
            postings: 0,
        };
        for (ids, freqs) in self.ids.as_chunks().0.iter().zip(self.freqs.as_chunks().0) {
            at = write_block(self.option, least, ids, freqs, skips, postings, at).unwrap();
            least = ids[127] + 1;
        }
    }

    // Question 15, then the bytes.
    fn write(
        &self,
        skips: &mut [u8],
        postings: &mut [u8],
        output: &mut [u8],
    ) -> Result<usize, Refusal>
        ensures { ListPut self.now.option self.now.ids.now self.now.freqs.now skips.old postings.old output.old
            skips.new postings.new output.new result }
    {
        let sizes = self.sizes();
        if !self.fits(sizes, skips, postings, output.len()) {
            return Err(Refusal::NoRoom);
        }
        self.write_blocks(skips, postings);
        self.image(sizes, skips, postings).put(output)
    }
}

// Ids and frequencies stay two parameters here and at `write_list`: C lends the two slices side by side.

// Every question of a whole list under an announced count: as `write_list` asks them, with 14 for another count behind those of the
// documents. Nothing is written.
pub fn ask_list(
    mode: u8,
    recording: bool,
    ids: &[u32],
    freqs: &[u32],
    announced: usize,
    skips: &[u8],
    postings: &[u8],
    output: &[u8],
) -> Result<(), Refusal>
    ensures { result ≡ accepted (announcing mode recording announced ids.now freqs.now
        skips.now postings.now output.now) }
{
    let list = ask_docs(mode, recording, ids, freqs)?;
    if ids.len() != announced {
        return Err(Refusal::CountMismatch);
    }
    if !list.has_room(skips, postings, output.len()) {
        return Err(Refusal::NoRoom);
    }
    Ok(())
}

// Writes a whole list: its image to the front of the output, the entries and the blocks of its full blocks to the fronts of the two
// areas. Where it answers a refusal, nothing is written.
pub fn write_list(
    mode: u8,
    recording: bool,
    ids: &[u32],
    freqs: &[u32],
    skips: &mut [u8],
    postings: &mut [u8],
    output: &mut [u8],
) -> Result<usize, Refusal>
    ensures { Listed mode recording ids.now freqs.now skips.old postings.old output.old
        skips.new postings.new output.new result }
{
    let list = ask_docs(mode, recording, ids, freqs)?;
    list.write(skips, postings, output)
}
