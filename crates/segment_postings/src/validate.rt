// Admission: whether an image is sound, which a walk over all its blocks tells.

ghost use Rattle.std.specs.Prelude.{◌≡◌};
ghost use Rattle.format.specs.Reading.{reading, soundness};
ghost use Rattle.segment_postings.specs.Taken.{ends_before, freqs_to_ask_of};

use crate::find::Start;
use crate::layout::{LaidImage, lay_out};
use crate::load::{FoundBlock, Taken};
use format::{Refusal, TERMINATED, Term};
use skip::block_size;

// Whether the ids of a full block end on its entry's last id, with `least` the least id that may come behind them: question 6.
#[tactic(auto, unfolding(crate::specs::Taken::ends_before))]
fn ends_right(taken: Taken, least: u64) -> bool
    ensures { result ≡ ends_before taken.full taken.last_doc least }
{
    !taken.full || least == taken.last_doc as u64 + 1
}

// How many frequencies are still to be asked for 0.
#[tactic(auto, unfolding(crate::specs::Taken::freqs_to_ask_of, format::specs::Basics::choose))]
fn freqs_to_ask(taken: Taken) -> usize
    ensures { result ≡ freqs_to_ask_of taken }
{
    if taken.freqs_nonzero { 0 } else { taken.n }
}

impl LaidImage<'_> {
    // Walks over the blocks, by labelled loops over the blocks and the places of each, as document 01 asks: the first question that is
    // answered no ends the whole walk, from inside a block's places too. The tail ends the loop over the blocks from inside as well, so it has
    // no range. `least` is one more than the id before; 64 bits hold any sum. `ask_docs` and `ask_freqs` ask the same of a
    // whole block, and can't be left at a place.
    fn walk(&self) -> Result<(), Refusal>
        ensures { result ≡ (reading self.now.term self.now.image.now).verdict }
    {
        let mut docs = [0; 128];
        let mut freqs = [0; 128];
        let mut block = 0;
        let mut at = self.layout.postings;
        let mut least: u64 = 0;
        'blocks: loop {
            let from = Start {
                block,
                at,
                least: least as u32,
                entries: block,
                unpacked: block,
            };
            let found = self.find_block(0, from)?;
            let here = FoundBlock {
                laid: *self,
                found,
                unpacked: block,
            };
            let taken = here.take_values(&mut docs, &mut freqs);
            if !taken.docs_there {
                break 'blocks Err(Refusal::NumberBroken);
            }
            'ids: for &difference in &docs[..taken.n] {
                least += difference as u64;
                if difference == 0 || (TERMINATED as u64) < least {
                    break 'blocks Err(Refusal::DocsNotRising);
                }
            }
            if !ends_right(taken, least) {
                break 'blocks Err(Refusal::DocsNotRising);
            }
            if !taken.freqs_there {
                break 'blocks Err(Refusal::NumberBroken);
            }
            'counts: for &freq in &freqs[..freqs_to_ask(taken)] {
                if freq == 0 {
                    break 'blocks Err(Refusal::FreqOutOfRange);
                }
            }
            if !taken.ended {
                break 'blocks Err(Refusal::BytesLeft);
            }
            if !taken.full {
                break 'blocks Ok(());
            }
            at += block_size(found.info);
            block += 1;
        }
    }
}

// Whether an image is sound; else the first question that a walk over the whole of it answers no. Frequencies are requested, as `total` does
// by the same literal, which a function's name would say no plainer.
pub fn validate(image: &[u8], mode: u8, count: u32) -> Result<(), Refusal>
    ensures { result ≡ soundness mode count image.now }
{
    let term = Term {
        mode,
        requested: 1,
        count,
    };
    lay_out(image, term)?.walk()
}
