// The block that a walk or a seek lands on, found by the skip entries alone.

ghost use Rattle.std.specs.Prelude.{◌≡◌, ◌+◌, ◌-◌, ◌≤◌, length, drop};
ghost use Rattle.format.specs.SkipEntry.{entry_size_of, read_entry};
ghost use Rattle.format.specs.Layout.{full_blocks_of, skip_bytes_of};
ghost use Rattle.segment_postings.specs.Landing.{tail_info_of, find_block_of};
ghost use Rattle.segment_postings.specs.Private.{FindsFrom};

use crate::layout::{LaidImage, full_blocks};
use format::{BlockInfo, IndexRecordOption, Refusal, TERMINATED};
use skip::{block_size, entry_fits, entry_size, read_entry};

// Where a search starts: a block, where its bytes begin, the least id that it may hold, and the entries read and the blocks unpacked by
// then.
#[derive(Clone, Copy)]
pub(crate) struct Start {
    pub block: usize,
    pub at: usize,
    pub least: u32,
    pub entries: usize,
    pub unpacked: usize,
}

// A block that was found by its entry, not yet unpacked: its number, where its bytes begin, the least id that it may hold, and the
// entries read by then. It has four numbers as `Start` has them, and is no `Start`: they are another block's.
#[derive(Clone, Copy)]
pub(crate) struct Found {
    pub block: usize,
    pub at: usize,
    pub least: u32,
    pub info: BlockInfo,
    pub entries: usize,
}

// The tail has no entry: no bits, and TERMINATED for its last id.
#[tactic(auto, unfolding(crate::specs::Landing::tail_info_of))]
fn tail_info() -> BlockInfo
    ensures { result ≡ tail_info_of }
{
    BlockInfo {
        last_doc: TERMINATED,
        doc_width: 0,
        strict: false,
        freq_width: 0,
    }
}

// The entry at place `at`, which is within the skip bytes.
fn entry_at(option: IndexRecordOption, skips: &[u8], at: usize) -> BlockInfo
    requires { at + entry_size_of option ≤ length skips.now }
    ensures { result ≡ read_entry option (drop at skips.now) }
{
    read_entry(option, skips, at).unwrap()
}

impl LaidImage<'_> {
    // From a block on, the first whose last id is at least the target, or the tail. Entries are read one by one, and each is asked question
    // 5, that of a block passed over too. A range, since a block's number is what is answered, and its entry is read at that number.
    pub(crate) fn find_block(&self, target: u32, from: Start) -> Result<Found, Refusal>
        requires { FindsFrom self.now.term self.now.image.now from }
        ensures { result ≡ find_block_of self.now.layout.option (skip_bytes_of self.now.layout self.now.image.now) self.now.image.now target
            (full_blocks_of self.now.term - from.block) from }
    {
        let mut at = from.at;
        let mut least = from.least;
        let mut entries = from.entries;
        let option = self.layout.option;
        let skips = &self.image[self.layout.skips..self.layout.postings];
        let blocks = full_blocks(self.term.count);
        let size = entry_size(option);
        let mut entry = size * from.block;
        for block in from.block..blocks {
            let info = entry_at(option, skips, entry);
            if !entry_fits(info, least, self.image.len() - at) {
                return Err(Refusal::EntryBroken);
            }
            entries += 1;
            if target <= info.last_doc {
                return Ok(Found {
                    block,
                    at,
                    least,
                    info,
                    entries,
                });
            }
            at += block_size(info);
            least = info.last_doc + 1;
            entry += size;
        }
        Ok(Found {
            block: blocks,
            at,
            least,
            info: tail_info(),
            entries,
        })
    }
}
