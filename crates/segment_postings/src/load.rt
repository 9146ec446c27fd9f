// A block taken out of an image, and questions 6 to 9 of document 01 asked of it.

ghost use Rattle.std.specs.Prelude.{Ok, ◌≡◌, ◌+◌, ◌^◌, ◌<◌, ◌≤◌, true, false, length, take, drop, ◌==◌};
ghost use Rattle.format.specs.Basics.{and_then};
ghost use Rattle.format.specs.Layout.{full_blocks_of};
ghost use Rattle.format.specs.Model.{member};
ghost use Rattle.format.specs.Reading.{keeps_freqs_of};
ghost use Rattle.format.specs.SkipEntry.{block_size_of};
ghost use Rattle.segment_postings.specs.Private.{FoundThere, BlockLoaded};
ghost use Rattle.segment_postings.specs.Taken.{ValuesTaken, DocsAsked, asked_freqs, full_taken_of, tail_taken_of};

use crate::find::Found;
use crate::layout::{LaidImage, full_blocks};
use bitpacking::unpack;
use compression::compressed_block_size;
use compression::values::{first_as_difference, has_zero, reduction, restore_docs};
use format::{BlockInfo, COMPRESSION_BLOCK_SIZE, IndexRecordOption, Refusal, TERMINATED};
use skip::has_freq;
use vint::uncompress_unsorted;

// A block that was found in an image, and the blocks unpacked by then: its bytes are there, and neither the place behind them nor
// one block more wraps.
#[derive(Clone, Copy)]
pub(crate) struct FoundBlock<'a> {
    pub laid: LaidImage<'a>,
    pub found: Found,
    pub unpacked: usize,
    ghost there: { FoundThere laid.term laid.image.now found × (unpacked + 1 < 2 ^ 64) × (found.at + block_size_of found.info < 2 ^ 64) },
}

// What was taken of a block, beside its values: how many they are, whether its numbers were all there, what their form rules out, and
// whether its bytes end where they should. All values are taken before the first is asked, by one function for both who ask, so each answer
// that taking gives is kept as a flag until its question's turn comes.
#[derive(Clone, Copy)]
pub struct Taken {
    pub full: bool,
    pub n: usize,
    // No `Option` beside `full`: a tail has a last id too, TERMINATED.
    pub last_doc: u32,
    // Of a tail: whether the numbers of all its ids were there.
    pub docs_there: bool,
    // That no difference of ids is 0, which the strict form rules out.
    pub docs_nonzero: bool,
    // Of a tail: whether the numbers of all its frequencies were there.
    pub freqs_there: bool,
    // That no frequency is 0: each is 1 where they weren't taken, or form and width rule it out.
    pub freqs_nonzero: bool,
    // Of a tail: that no bytes are left, or that those that are left aren't asked for.
    pub ended: bool,
    // Whether the image keeps frequencies; of a tail it is told where the numbers of all its ids were there.
    pub kept: bool,
    // Blocks unpacked so far, with this one.
    pub unpacked: usize,
}

// How many blocks are unpacked, with one more, and whether the image keeps frequencies, which document 02 asks of a block (Ask 6).
#[derive(Clone, Copy)]
pub(crate) struct Loaded {
    pub unpacked: usize,
    pub kept: bool,
}

// What was taken of a full block: its numbers are packed, so that none is missing. Flags are parameters, since they are fields of `Taken`.
fn full_taken(info: BlockInfo, freqs_nonzero: bool, kept: bool, unpacked: usize) -> Taken
    ensures { result ≡ full_taken_of info freqs_nonzero kept unpacked }
{
    Taken {
        full: true,
        n: 128,
        last_doc: info.last_doc,
        docs_there: true,
        docs_nonzero: info.strict,
        freqs_there: true,
        freqs_nonzero,
        ended: true,
        kept,
        unpacked,
    }
}

// What was taken of a tail of n documents to which every question but one is answered yes: that its form rules out a difference of 0.
fn tail_taken(n: usize, kept: bool, unpacked: usize) -> Taken
    ensures { result ≡ tail_taken_of n true true true true kept unpacked }
{
    Taken {
        full: false,
        n,
        last_doc: TERMINATED,
        docs_there: true,
        docs_nonzero: false,
        freqs_there: true,
        freqs_nonzero: true,
        ended: true,
        kept,
        unpacked,
    }
}

// Whether no byte is left from place `at` on.
fn none_left(image: &[u8], at: usize) -> bool
    ensures { result ≡ (length (drop at image.now) == 0) }
{
    image.len() <= at
}

// Whether an image keeps frequencies; those of a tail of n documents would begin at place `at`. That the tail is `alone`, with no full block, is
// all that it asks of the others, so a flag.
#[tactic(auto, unfolding(format::specs::Reading::keeps_freqs_of))]
fn keeps_freqs(option: IndexRecordOption, alone: bool, n: usize, image: &[u8], at: usize) -> bool
    ensures { result ≡ keeps_freqs_of option alone n (drop at image.now) }
{
    has_freq(option) && !(alone && 0 < n && none_left(image, at))
}

// Questions 8 and 6 of a block's ids, which then stand in the place of their differences.
fn ask_docs(taken: Taken, least: u32, docs: &mut [u32; 128]) -> Result<(), Refusal>
    requires { (taken.docs_nonzero ≡ true → member 0 (take taken.n docs.old) ≡ false) }
    ensures { DocsAsked taken least docs.old docs.new result }
{
    if !taken.docs_there {
        return Err(Refusal::NumberBroken);
    }
    let last = restore_docs(docs, taken.n, taken.docs_nonzero, least)?;
    if taken.full && last != taken.last_doc {
        return Err(Refusal::DocsNotRising);
    }
    Ok(())
}

// Questions 8, 7 and 9 of its frequencies.
fn ask_freqs(taken: Taken, freqs: &[u32; 128]) -> Result<(), Refusal>
    requires { (taken.freqs_nonzero ≡ true → member 0 (take taken.n freqs.now) ≡ false) }
    ensures { asked_freqs taken freqs.now ≡ and_then result λ _. Ok (take taken.n freqs.now) }
{
    if !taken.freqs_there {
        return Err(Refusal::NumberBroken);
    }
    if !taken.freqs_nonzero && has_zero(freqs, taken.n) {
        return Err(Refusal::FreqOutOfRange);
    }
    if !taken.ended {
        return Err(Refusal::BytesLeft);
    }
    Ok(())
}

impl FoundBlock<'_> {
    // The blocks unpacked, with this one.
    fn counted(&self) -> usize
        ensures { result ≡ self.now.unpacked + 1 }
    {
        self.unpacked + 1
    }

    // Takes the values of a full block out of an image.
    fn take_full(&self, docs: &mut [u32; 128], freqs: &mut [u32; 128]) -> Taken
        requires { self.now.found.block < full_blocks_of self.now.laid.term }
        ensures { ValuesTaken self.now.laid.term self.now.laid.layout self.now.laid.image.now self.now.found self.now.unpacked docs.new freqs.new result }
    {
        let counted = self.counted();
        let found = self.found;
        let info = found.info;
        let more = reduction(info.strict);
        unpack(&self.laid.image[found.at..], info.doc_width, more, docs);
        if !info.strict {
            first_as_difference(docs, found.least);
        }
        let kept = has_freq(self.laid.layout.option);
        if !kept || self.laid.term.requested == 0 {
            *freqs = [1; 128];
            return full_taken(info, true, kept, counted);
        }
        let behind = found.at + compressed_block_size(info.doc_width);
        unpack(&self.laid.image[behind..], info.freq_width, more, freqs);
        full_taken(info, info.strict && info.freq_width < 32, kept, counted)
    }

    // Takes those of the tail; where its ids aren't all there nothing is told of the ids' array.
    fn take_tail(&self, docs: &mut [u32; 128], freqs: &mut [u32; 128]) -> Taken
        requires { full_blocks_of self.now.laid.term ≤ self.now.found.block }
        ensures { ValuesTaken self.now.laid.term self.now.laid.layout self.now.laid.image.now self.now.found self.now.unpacked docs.new freqs.new result }
    {
        let image = self.laid.image;
        let found = self.found;
        let counted = self.counted();
        // Written out: `docs_in` would ask once more whether this is the tail.
        let n = self.laid.term.count as usize % COMPRESSION_BLOCK_SIZE;
        *docs = [TERMINATED; 128];
        *freqs = [1; 128];
        let Some(behind) = uncompress_unsorted(image, found.at, &mut docs[..n]) else {
            return Taken {
                docs_there: false,
                ..tail_taken(n, false, counted)
            };
        };
        first_as_difference(&mut docs[..n], found.least);
        let alone = full_blocks(self.laid.term.count) == 0;
        let kept = keeps_freqs(self.laid.layout.option, alone, n, image, behind);
        if !kept || n == 0 {
            return Taken {
                ended: none_left(image, behind),
                ..tail_taken(n, kept, counted)
            };
        }
        if self.laid.term.requested == 0 {
            return tail_taken(n, kept, counted);
        }
        // Apart: where some are missing, the lent array still holds 1 throughout.
        let mut counts = [1; 128];
        let Some(end) = uncompress_unsorted(image, behind, &mut counts[..n]) else {
            return Taken {
                freqs_there: false,
                ..tail_taken(n, kept, counted)
            };
        };
        *freqs = counts;
        Taken {
            freqs_nonzero: false,
            ended: none_left(image, end),
            ..tail_taken(n, kept, counted)
        }
    }

    // Takes the values of a block out of an image, and counts it, by one of the two above: nothing else does either. Ids are left as
    // differences, frequencies as they are.
    #[tactic(auto, unfolding(format::specs::Layout::full_blocks_of))]
    pub(crate) fn take_values(&self, docs: &mut [u32; 128], freqs: &mut [u32; 128]) -> Taken
        ensures { ValuesTaken self.now.laid.term self.now.laid.layout self.now.laid.image.now self.now.found self.now.unpacked docs.new freqs.new result }
    {
        if self.found.block < full_blocks(self.laid.term.count) {
            self.take_full(docs, freqs)
        } else {
            self.take_tail(docs, freqs)
        }
    }

    // Unpacks the block that was found into two lent arrays, and asks questions 6 to 9. What a refusal leaves in the arrays isn't told.
    pub(crate) fn load(
        &self,
        docs: &mut [u32; 128],
        freqs: &mut [u32; 128],
    ) -> Result<Loaded, Refusal>
        ensures { BlockLoaded self.now.laid.term self.now.laid.layout self.now.laid.image.now self.now.found self.now.unpacked docs.new freqs.new result }
    {
        let taken = self.take_values(docs, freqs);
        ask_docs(taken, self.found.least, docs)?;
        ask_freqs(taken, freqs)?;
        Ok(Loaded {
            unpacked: taken.unpacked,
            kept: taken.kept,
        })
    }
}
