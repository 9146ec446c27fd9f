// One document more: what is asked of it, and the block that it fills.

ghost use Rattle.std.specs.Prelude.{◌≡◌, ◌<◌, ◌≤◌, not, ◌||◌ as or, length, nat_le, slice_set, Ok};
ghost use Rattle.format.specs.Accepted.{take_doc};
ghost use Rattle.format.specs.Basics as basics;
ghost use Rattle.format.specs.SkipEntry.{has_freq_of};
ghost use Rattle.serializer.specs.Calls.{state_of, TookIn};
ghost use Rattle.serializer.specs.Pieces.{asking, one_more_of, behind_block_of};
ghost use Rattle.serializer.specs.Writer.{least_after_of};

use crate::Progress;
use crate::block::{Places, write_block};
use format::{IndexRecordOption, Refusal, TERMINATED};
use skip::has_freq;

// The least id that may come behind some ids, given the least that the first of them may have. Tried: `map_or`, whose proof didn't close.
fn least_after(least: u64, docs: &[u32]) -> u64
    ensures { result ≡ least_after_of least docs.now }
{
    match docs.last() {
        Some(&last) => last as u64 + 1,
        None => least,
    }
}

// Question 13.
fn freq_counts(option: IndexRecordOption, freq: u32) -> bool
    ensures { result ≡ or (not (has_freq_of option)) (nat_le 1 freq) }
{
    !has_freq(option) || 1 <= freq
}

// Questions 11 to 13; the least id that may come behind the document. Here and below id and frequency stay two parameters, as the public
// calls have them: a struct of both would be taken apart at each question.
pub(crate) fn ask_doc(
    option: IndexRecordOption,
    least: u64,
    doc: u32,
    freq: u32,
) -> Result<u64, Refusal>
    ensures { result ≡ take_doc option least doc freq }
{
    if TERMINATED <= doc {
        return Err(Refusal::IdTooLarge);
    }
    if (doc as u64) < least {
        return Err(Refusal::IdNotRising);
    }
    if !freq_counts(option, freq) {
        return Err(Refusal::FreqZero);
    }
    Ok(doc as u64 + 1)
}

impl Progress {
    // What is asked before a document is taken: 16, 11 to 13, and 16 where as many are taken as can be.
    #[tactic(auto, using(crate::proofs::bounds::Question16::few_fit))]
    pub(crate) fn may_take(
        self,
        doc: u32,
        freq: u32,
        docs: &[u32; 128],
        freqs: &[u32; 128],
        skips: usize,
        postings: usize,
    ) -> Result<(), Refusal>
        ensures { result ≡ asking (state_of self docs.now freqs.now) doc freq skips postings }
    {
        if !self.in_bounds(docs, freqs, skips, postings) {
            return Err(Refusal::StateBroken);
        }
        let option = self.option();
        let least = least_after(self.first_least(), &docs[..self.waiting]);
        ask_doc(option, least, doc, freq)?;
        if TERMINATED <= self.taken {
            return Err(Refusal::StateBroken);
        }
        Ok(())
    }

    // The numbers with one document more, which waits.
    pub(crate) fn one_more(self) -> Progress
        requires { (self.waiting < 127) × (self.taken < basics.TERMINATED) }
        ensures { result ≡ one_more_of self }
    {
        Progress {
            waiting: self.waiting + 1,
            taken: self.taken + 1,
            ..self
        }
    }

    // The numbers with one document more, which filled a block that was written up to these places.
    fn behind_block(self, doc: u32, at: Places) -> Progress
        requires { self.taken < basics.TERMINATED }
        ensures { result ≡ behind_block_of self doc at }
    {
        Progress {
            waiting: 0,
            last_doc: doc,
            taken: self.taken + 1,
            skips_at: at.skips,
            postings_at: at.postings,
            ..self
        }
    }
}

// 128 values, the last of them replaced.
fn with_last(values: &[u32; 128], last: u32) -> [u32; 128]
    ensures { result ≡ slice_set values.now 127 last }
{
    let mut block = *values;
    block[127] = last;
    block
}

impl Progress {
    // Takes a document that may be taken and fills a block, which is written into the areas. Where there is no room the arrays stay as
    // they were, so the block is put together in two of its own.
    pub(crate) fn fill_block(
        self,
        doc: u32,
        freq: u32,
        docs: &mut [u32; 128],
        freqs: &mut [u32; 128],
        skips: &mut [u8],
        postings: &mut [u8],
    ) -> Result<Progress, Refusal>
        requires { (asking (state_of self docs.old freqs.old) doc freq (length skips.old) (length postings.old) ≡ Ok tt)
            × (127 ≤ self.waiting) }
        ensures { TookIn (state_of self docs.old freqs.old) doc freq skips.old postings.old
            docs.new freqs.new skips.new postings.new result }
    {
        let block_docs = with_last(docs, doc);
        let block_freqs = with_last(freqs, freq);
        let least = self.first_least() as u32;
        let at = Places {
            skips: self.skips_at,
            postings: self.postings_at,
        };
        let option = self.option();
        let behind = write_block(
            option,
            least,
            &block_docs,
            &block_freqs,
            skips,
            postings,
            at,
        )?;
        *docs = block_docs;
        *freqs = block_freqs;
        Ok(self.behind_block(doc, behind))
    }
}
