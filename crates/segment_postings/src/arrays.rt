// The cursor on two lent arrays: opening, leaving a block and a step, with the cursor's numbers by value. Calls on a whole cursor
// take it apart, lend its arrays and put it together again; loops over many calls use these functions and copy no cursor.

ghost use Rattle.std.specs.Prelude.{◌≡◌, ◌+◌, ◌/◌, ◌^◌, ◌<◌, true, length, ◌==◌};
ghost use Rattle.segment_postings.specs.Landing.{first_start_of, landing};
ghost use Rattle.segment_postings.specs.Cursor.{position, in_bounds_of, answer_at_of, answering, opening, least_after_of, starts_inside_of, start_behind_of, leaving, held_at, stepping};
ghost use Rattle.segment_postings.specs.Calls.{cursor_of, Reaches};
ghost use Rattle.segment_postings.specs.Private.{FindsFrom, loaded, Lands};

use crate::find::Start;
use crate::layout::{LaidImage, full_blocks, lay_out};
use crate::load::FoundBlock;
use crate::{Answer, Held, Sought};
use format::{COMPRESSION_BLOCK_SIZE, Refusal, TERMINATED, Term};
use skip::block_size;

// The least id that may follow a last id; none may follow TERMINATED.
#[tactic(auto, unfolding(crate::specs::Cursor::least_after_of))]
fn least_after(last_doc: u32) -> u32
    ensures { result ≡ least_after_of last_doc }
{
    last_doc.saturating_add(1).min(TERMINATED)
}

impl Held {
    // Question 16 of a cursor over an image of `size` bytes: it is asked of the numbers alone.
    #[tactic(auto, unfolding(crate::specs::Cursor::in_bounds_of, crate::specs::Cursor::position))]
    pub(crate) fn in_bounds(self, term: Term, size: usize) -> bool
        ensures { result ≡ in_bounds_of term size self }
    {
        let count = term.count as usize;
        let blocks = full_blocks(term.count);
        self.block <= blocks
            && self.place < COMPRESSION_BLOCK_SIZE
            && COMPRESSION_BLOCK_SIZE * self.block + self.place <= count
            && self.next <= size
            && self.unpacked <= self.block + 1
            && self.entries <= self.block + 1
            && self.entries <= blocks
    }

    // Whether the position is the end, for a place in a block. That it is one stays a `requires`, here, in `shown_at` and in `with_answer`: callers have
    // asked it, or have it from the call that came there.
    pub(crate) fn at_end(self, term: Term) -> bool
        requires { self.place < 128 }
        ensures { result ≡ (position self == term.count) }
    {
        let count = term.count as usize;
        self.block == full_blocks(term.count) && self.place == count % COMPRESSION_BLOCK_SIZE
    }

    // The numbers of a cursor at another place of its held block.
    pub(crate) fn at_place(self, place: usize) -> Held
        ensures { result ≡ held_at self place }
    {
        Held { place, ..self }
    }

    // The block behind the held one.
    pub(crate) fn start_behind(self) -> Start
        requires { self.block + 1 < 2 ^ 64 }
        ensures { result ≡ start_behind_of self }
    {
        Start {
            block: self.block + 1,
            at: self.next,
            least: least_after(self.last_doc),
            entries: self.entries,
            unpacked: self.unpacked,
        }
    }
}

// The document and the frequency at the position, for a place of a block, with the hit told; at the end TERMINATED and 0.
#[tactic(auto, unfolding(crate::specs::Cursor::answer_at_of, format::specs::Basics::choose))]
pub(crate) fn shown_at(sought: Sought, term: Term, docs: &[u32; 128], freqs: &[u32; 128]) -> Answer
    requires { sought.held.place < 128 }
    ensures { result ≡ answer_at_of term sought.hit (cursor_of sought.held docs.now freqs.now) }
{
    let Sought { held, hit } = sought;
    if held.at_end(term) {
        return Answer {
            doc: TERMINATED,
            freq: 0,
            unpacked: held.unpacked,
            entries: held.entries,
            hit,
        };
    }
    let place = held.place;
    Answer {
        doc: docs[place],
        freq: freqs[place],
        unpacked: held.unpacked,
        entries: held.entries,
        hit,
    }
}

// The same for any place: one that no block has is refused (16). It has no target, so no hit: a seek's is what `seek_in` answered.
pub fn answer_at(
    held: Held,
    term: Term,
    docs: &[u32; 128],
    freqs: &[u32; 128],
) -> Result<Answer, Refusal>
    ensures { result ≡ answering term (cursor_of held docs.now freqs.now) }
{
    if COMPRESSION_BLOCK_SIZE <= held.place {
        return Err(Refusal::StateBroken);
    }
    Ok(shown_at(Sought { held, hit: false }, term, docs, freqs))
}

// Two arrays are lent, here and above: the calls on lent arrays have them so (document 01), and a struct of both would only be filled from them
// and stored to them. They have a fixed length, and callers or the stack hold them: no heap is used.
impl FoundBlock<'_> {
    // Unpacks the block, and goes to its first place: questions 6 to 9. What a refusal leaves in the arrays, here and in all that
    // goes by this, isn't told: whoever may not lose them lends two of its own.
    fn unpack_found(&self, docs: &mut [u32; 128], freqs: &mut [u32; 128]) -> Result<Held, Refusal>
        ensures { Lands (loaded self.now.laid.term self.now.laid.layout self.now.laid.image.now self.now.found self.now.unpacked) docs.new freqs.new result }
    {
        let loaded = self.load(docs, freqs)?;
        let found = self.found;
        let info = found.info;
        Ok(Held {
            place: 0,
            block: found.block,
            next: found.at + block_size(info),
            last_doc: info.last_doc,
            unpacked: loaded.unpacked,
            entries: found.entries,
        })
    }
}

impl LaidImage<'_> {
    // Goes to the first block from a block on whose last id is at least the target, and unpacks it: questions 5 to 9.
    pub(crate) fn land(
        &self,
        target: u32,
        from: Start,
        docs: &mut [u32; 128],
        freqs: &mut [u32; 128],
    ) -> Result<Held, Refusal>
        requires { FindsFrom self.now.term self.now.image.now from × (from.unpacked + 1 < 2 ^ 64) }
        ensures { Lands (landing self.now.term self.now.image.now self.now.layout target from) docs.new freqs.new result }
    {
        let found = self.find_block(target, from)?;
        let block = FoundBlock {
            laid: *self,
            found,
            unpacked: from.unpacked,
        };
        block.unpack_found(docs, freqs)
    }

    // Block 0, before anything is read.
    pub(crate) fn first_start(&self) -> Start
        ensures { result ≡ first_start_of self.now.layout }
    {
        Start {
            block: 0,
            at: self.layout.postings,
            least: 0,
            entries: 0,
            unpacked: 0,
        }
    }

    // Whether a block that begins at `at` begins inside the posting bytes: a part of question 5, so asked of a block with an entry alone.
    #[tactic(auto, unfolding(crate::specs::Cursor::starts_inside_of, format::specs::Layout::full_blocks_of))]
    fn starts_inside(&self, block: usize, at: usize) -> bool
        ensures { result ≡ starts_inside_of self.now.term self.now.layout block at }
    {
        full_blocks(self.term.count) <= block || self.layout.postings <= at
    }
}

// Goes to a list's first document: questions 1 to 4, then entry 0, if any, and block 0.
pub(crate) fn land_first(
    image: &[u8],
    term: Term,
    docs: &mut [u32; 128],
    freqs: &mut [u32; 128],
) -> Result<Held, Refusal>
    ensures { Lands (opening image.now term) docs.new freqs.new result }
{
    let laid = lay_out(image, term)?;
    laid.land(0, laid.first_start(), docs, freqs)
}

// Opens a list at its first document; a refusal leaves the arrays as they were.
pub fn open_in(
    image: &[u8],
    term: Term,
    docs: &mut [u32; 128],
    freqs: &mut [u32; 128],
) -> Result<Held, Refusal>
    ensures { Reaches (opening image.now term) docs.old freqs.old docs.new freqs.new result }
{
    let mut ids = [0; 128];
    let mut counts = [0; 128];
    let held = land_first(image, term, &mut ids, &mut counts)?;
    *docs = ids;
    *freqs = counts;
    Ok(held)
}

// The numbers, the image and the term go on as parameters, here, in `leave_whole`, `seek_behind` and `go`: each public call on lent arrays asks
// question 16 of them in a line and answers numbers, so a struct of the three would be made and taken apart by each.
//
// Goes to another block, from a full one: questions 1 to 4 are asked again of the image that is passed, then 5 to 9. A lent
// cursor that didn't come from this image may place its next block before the posting bytes.
fn leave(
    held: Held,
    image: &[u8],
    term: Term,
    target: u32,
    docs: &mut [u32; 128],
    freqs: &mut [u32; 128],
) -> Result<Held, Refusal>
    requires { (in_bounds_of term (length image.now) held ≡ true) × (held.block < term.count / 128) }
    ensures { Lands (leaving held image.now term target) docs.new freqs.new result }
{
    let laid = lay_out(image, term)?;
    let from = held.start_behind();
    if !laid.starts_inside(from.block, from.at) {
        return Err(Refusal::EntryBroken);
    }
    laid.land(target, from, docs, freqs)
}

// The same; a refusal leaves the arrays as they were. `open_in` stores as this does: one function of both would take a closure that is lent
// the two arrays, and its clauses would have to say what the closure answers and writes.
pub(crate) fn leave_whole(
    held: Held,
    image: &[u8],
    term: Term,
    target: u32,
    docs: &mut [u32; 128],
    freqs: &mut [u32; 128],
) -> Result<Held, Refusal>
    requires { (in_bounds_of term (length image.now) held ≡ true) × (held.block < term.count / 128) }
    ensures { Reaches (leaving held image.now term target) docs.old freqs.old docs.new freqs.new result }
{
    let mut ids = [0; 128];
    let mut counts = [0; 128];
    let reached = leave(held, image, term, target, &mut ids, &mut counts)?;
    *docs = ids;
    *freqs = counts;
    Ok(reached)
}

// Steps to the next document: in the held block, or to the first of the next one; at the end nowhere.
pub fn advance_in(
    held: Held,
    image: &[u8],
    term: Term,
    docs: &mut [u32; 128],
    freqs: &mut [u32; 128],
) -> Result<Held, Refusal>
    ensures { Reaches (stepping (cursor_of held docs.old freqs.old) image.now term) docs.old freqs.old docs.new freqs.new result }
{
    if !held.in_bounds(term, image.len()) {
        return Err(Refusal::StateBroken);
    }
    if held.at_end(term) {
        return Ok(held);
    }
    let place = held.place + 1;
    if place < COMPRESSION_BLOCK_SIZE {
        return Ok(held.at_place(place));
    }
    leave_whole(held, image, term, 0, docs, freqs)
}
