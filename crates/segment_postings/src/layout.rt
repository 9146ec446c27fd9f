// Where the parts of an image lie: questions 1 to 4 of document 01, and the split into skip bytes and posting bytes.

ghost use Rattle.std.specs.Prelude.{Ok, ◌≡◌, ◌-◌, ◌/◌, ◌≤◌};
ghost use Rattle.std.specs.Result.{IfOk};
ghost use Rattle.format.specs.Basics.{and_then};
ghost use Rattle.format.specs.Layout as layouts;
ghost use Rattle.segment_postings.specs.Calls.{split_of, skip_part, posting_part};

use format::{COMPRESSION_BLOCK_SIZE, Layout, Refusal, TERMINATED, Term};
use skip::{entry_size, known_mode, record_option};
use vint::read_vint_u64;

// An image to which questions 1 to 4 are answered yes, with its term and where its parts begin.
#[derive(Clone, Copy)]
pub(crate) struct LaidImage<'a> {
    pub image: &'a [u8],
    pub term: Term,
    pub layout: Layout,
    ghost laid_out: { layouts.layout term image.now ≡ Ok layout },
}

// Where the skip bytes and the posting bytes begin.
#[derive(Clone, Copy)]
struct Split {
    skips: usize,
    postings: usize,
}

// How many full blocks a list of `count` documents has.
pub(crate) fn full_blocks(count: u32) -> usize
    ensures { result ≡ count / 128 }
{
    count as usize / COMPRESSION_BLOCK_SIZE
}

// Question 3. Without a full block there is no skip length, and the posting bytes are the whole image.
fn split_into_skips_and_postings(image: &[u8], count: u32) -> Result<Split, Refusal>
    ensures { result ≡ split_of count image.now }
{
    if full_blocks(count) == 0 {
        return Ok(Split {
            skips: 0,
            postings: 0,
        });
    }
    let (value, used) = read_vint_u64(image, 0).ok_or(Refusal::SkipLengthBroken)?;
    let size = value as usize;
    if image.len() - used < size {
        return Err(Refusal::SkipLengthBroken);
    }
    Ok(Split {
        skips: used,
        postings: used + size,
    })
}

// Question 4.
fn lay_out_entries(term: Term, split: Split) -> Result<Layout, Refusal>
    requires { split.skips ≤ split.postings }
    ensures { result ≡ layouts.sized term (split.postings - split.skips) split.skips }
{
    let size = split.postings - split.skips;
    let blocks = full_blocks(term.count);
    let option = record_option(term.mode, 8 * blocks <= size);
    if size != entry_size(option) * blocks {
        return Err(Refusal::SkipLengthWrong);
    }
    Ok(Layout {
        option,
        skips: split.skips,
        postings: split.postings,
    })
}

// Questions 1 to 4, in turn.
fn ask_layout(image: &[u8], term: Term) -> Result<Layout, Refusal>
    ensures { result ≡ layouts.layout term image.now }
{
    if !known_mode(term.mode) || 2 < term.requested {
        return Err(Refusal::UnknownMode);
    }
    if TERMINATED < term.count {
        return Err(Refusal::CountTooLarge);
    }
    let split = split_into_skips_and_postings(image, term.count)?;
    lay_out_entries(term, split)
}

// The image laid out by them.
#[tactic(auto, unfolding(format::specs::Basics::and_then))]
pub(crate) fn lay_out<'a>(image: &'a [u8], term: Term) -> Result<LaidImage<'a>, Refusal>
    ensures answer { and_then result (λ laid. Ok laid.layout) ≡ layouts.layout term image.now }
    ensures image { IfOk result (λ laid. (laid.term ≡ term) × (laid.image.now ≡ image.now)) }
{
    let layout = ask_layout(image, term)?;
    Ok(LaidImage {
        image,
        term,
        layout,
    })
}

// The skip bytes of a list of `count` documents, a part of its image. Of the questions only 3 is asked; where the answer is no the
// part is empty.
pub fn skip_bytes(image: &[u8], count: u32) -> &[u8]
    ensures { result.now ≡ skip_part count image.now }
{
    match split_into_skips_and_postings(image, count) {
        Ok(split) => &image[split.skips..split.postings],
        Err(_) => &image[..0],
    }
}

// The posting bytes, the part behind the skip bytes, by the same split; empty too where the answer is no. One call for each part, as
// document 01 has it.
pub fn posting_bytes(image: &[u8], count: u32) -> &[u8]
    ensures { result.now ≡ posting_part count image.now }
{
    match split_into_skips_and_postings(image, count) {
        Ok(split) => &image[split.postings..],
        Err(_) => &image[..0],
    }
}
