// Skip entries, read and written, and what they hold by record option. The functions of an option or an entry are no methods, since the
// types are crate format's, and an impl of them can't stand in another crate.

#![tactic(auto)]

ghost use Rattle.std.specs.Prelude.{◌≡◌, ◌+◌, ◌≤◌, ◌<◌, length, drop};
ghost use Rattle.format.specs.Basics.{four_bytes};
ghost use Rattle.format.specs.SkipEntry.{has_freq_of, entry_size_of, freq_width_of, read_entry, width_byte_of, block_size_of, entry_fits_of};
ghost use Rattle.format.specs.Accepted.{known_mode_of, kept_in};
ghost use Rattle.skip.specs.Entry.{entry_at, entry_put, entry_next};

use common::{put, u32_from_le_bytes, u32_to_le_bytes, within};
use compression::compressed_block_size;
use format::{BlockInfo, IndexRecordOption, TERMINATED};

// Whether blocks and entries hold frequencies.
#[tactic(auto, unfolding(format::specs::SkipEntry::has_freq_of))]
pub fn has_freq(option: IndexRecordOption) -> bool
    ensures { result ≡ has_freq_of option }
{
    matches!(option, IndexRecordOption::WithFreqs)
}

// The bytes of an entry.
#[tactic(auto, unfolding(format::specs::SkipEntry::entry_size_of))]
pub fn entry_size(option: IndexRecordOption) -> usize
    ensures { result ≡ entry_size_of option }
{
    match option {
        IndexRecordOption::Basic => 5,
        IndexRecordOption::WithFreqs => 8,
    }
}

// Question 1 of document 01 of a recorded mode.
#[tactic(auto, unfolding(format::specs::Accepted::known_mode_of))]
pub fn known_mode(mode: u8) -> bool
    ensures { result ≡ known_mode_of mode }
{
    mode <= 1
}

// What a list of this mode keeps, by whether its frequencies are recorded. Mode and recording stay two parameters, here and in the crates
// above: a caller may hand in any number as the mode, and question 1 refuses the others.
#[tactic(auto, unfolding(format::specs::Accepted::kept_in, format::specs::Basics::choose))]
pub fn record_option(mode: u8, recording: bool) -> IndexRecordOption
    ensures { result ≡ kept_in mode recording }
{
    if mode == 1 && recording {
        IndexRecordOption::WithFreqs
    } else {
        IndexRecordOption::Basic
    }
}

// The 32-bit number at place `at`. A shared function for it would want a `requires` or a test (crates/common/src/lib.rt).
fn read_u32(bytes: &[u8], at: usize) -> u32
    requires { at + 4 ≤ length bytes.now }
    ensures { result ≡ four_bytes bytes.now at }
{
    u32_from_le_bytes(bytes[at], bytes[at + 1], bytes[at + 2], bytes[at + 3])
}

// The frequency width of the entry at place `at`, 0 where there are no frequencies.
#[tactic(auto, unfolding(format::specs::SkipEntry::freq_width_of, format::specs::SkipEntry::entry_size_of))]
fn read_freq_width(option: IndexRecordOption, skips: &[u8], at: usize) -> u8
    requires { at + entry_size_of option ≤ length skips.now }
    ensures { result ≡ freq_width_of option (drop at skips.now) }
{
    match option {
        IndexRecordOption::Basic => 0,
        IndexRecordOption::WithFreqs => skips[at + 5],
    }
}

// The entry at place `at`, which is within the bytes.
#[tactic(auto, unfolding(format::specs::SkipEntry::read_entry, format::specs::SkipEntry::entry_size_of, format::specs::Basics::word,))]
fn read_block_info(option: IndexRecordOption, skips: &[u8], at: usize) -> BlockInfo
    requires { at + entry_size_of option ≤ length skips.now }
    ensures { result ≡ read_entry option (drop at skips.now) }
{
    let width = skips[at + 4];
    BlockInfo {
        last_doc: read_u32(skips, at),
        doc_width: width % 32,
        strict: width / 64 % 2 == 1,
        freq_width: read_freq_width(option, skips, at),
    }
}

// The entry at place `at`, where there are bytes enough for one.
#[tactic(auto, unfolding(crate::specs::Entry::entry_at, format::specs::Basics::choose))]
pub fn read_entry(option: IndexRecordOption, skips: &[u8], at: usize) -> Option<BlockInfo>
    ensures { result ≡ entry_at option skips.now at }
{
    within(at, entry_size(option), skips.len()).then(|| read_block_info(option, skips, at))
}

// The document width, with the bit of a strict block.
#[tactic(auto, unfolding(format::specs::SkipEntry::width_byte_of, format::specs::Basics::choose))]
fn width_byte(info: BlockInfo) -> u8
    requires { info.doc_width < 32 }
    ensures { result ≡ width_byte_of info }
{
    info.doc_width + 64 * u8::from(info.strict)
}

// Writes an entry at place `at`. Where the document width has more than its five bits, or the entry doesn't fit, nothing is written.
#[tactic(auto, unfolding(crate::specs::Entry::entry_put, crate::specs::Entry::entry_next, format::specs::Basics::choose, format::specs::Basics::le32, format::specs::SkipEntry::write_entry_of, format::specs::SkipEntry::entry_size_of, format::specs::SkipEntry::freq_part,))]
pub fn write_entry(
    option: IndexRecordOption,
    info: BlockInfo,
    area: &mut [u8],
    at: usize,
) -> Option<usize>
    ensures next { result ≡ entry_next option info at area.old }
    ensures area { area.new ≡ entry_put option info at area.old }
{
    if 32 <= info.doc_width {
        return None;
    }
    // an array of the larger entry's length, of which the other kind's is the front: no heap is used
    let [a, b, c, d] = u32_to_le_bytes(info.last_doc);
    let bytes = [a, b, c, d, width_byte(info), info.freq_width, 0, 0];
    put(&bytes[..entry_size(option)], area, at)
}

// The bytes of the entry's block. The widths of an entry that was read and fits make at most 63 together; those of others may make
// more than a byte holds, so each is counted apart.
#[tactic(auto, unfolding(format::specs::SkipEntry::block_size_of))]
pub fn block_size(info: BlockInfo) -> usize
    ensures { result ≡ block_size_of info }
{
    compressed_block_size(info.doc_width) + compressed_block_size(info.freq_width)
}

// Question 5 of document 01: whether an entry may stand behind ids below `least`, with `left` posting bytes from its block on.
#[tactic(auto, unfolding(format::specs::SkipEntry::entry_fits_of))]
pub fn entry_fits(info: BlockInfo, least: u32, left: usize) -> bool
    ensures { result ≡ entry_fits_of least left info }
{
    info.freq_width <= 32
        && least <= info.last_doc
        && info.last_doc < TERMINATED
        && block_size(info) <= left
}
