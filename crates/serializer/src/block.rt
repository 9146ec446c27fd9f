// A full block: its skip entry into one lent area, its packed values into the other.

ghost use Rattle.std.specs.Prelude.{◌≡◌, ◌+◌, ◌*◌, ◌≤◌, true, ◌&&◌ as and, ◌++◌, length, nat_le};
ghost use Rattle.format.specs.Basics.{last_of, put_at};
ghost use Rattle.format.specs.Bitpacking as packing;
ghost use Rattle.format.specs.SkipEntry.{has_freq_of, entry_size_of, block_size_of, write_entry_of};
ghost use Rattle.format.specs.Values.{rising};
ghost use Rattle.format.specs.Written.{only_if};
ghost use Rattle.serializer.specs.Pieces.{BlockFits, BlockPut, BlockWritten};

use bitpacking::{num_bits, pack};
use common::within;
use compression::compressed_block_size;
use compression::values::{reduce_docs, reduce_freqs};
use format::{BlockInfo, IndexRecordOption, Refusal};
use skip::{block_size, entry_size, has_freq, write_entry};

// Places in the two areas, for a block's entry and for its values. One type for these and for `Sizes`, which are lengths, would be no
// plainer: its name and its fields' would say neither. segment_postings, whose `Split` has such fields, doesn't use this crate.
#[derive(Clone, Copy, Debug, PartialEq, Eq)]
pub struct Places {
    pub skips: usize,
    pub postings: usize,
}

// The last of some ids, 0 where there is none.
pub(crate) fn last_of(docs: &[u32]) -> u32
    ensures { result ≡ last_of 0 docs.now }
{
    docs.last().copied().unwrap_or(0)
}

// The width of a block's frequency values, 0 where frequencies aren't kept.
#[tactic(auto, unfolding(format::specs::Written::only_if, format::specs::Bitpacking::width, format::specs::Bitpacking::bits_f, format::specs::Bitpacking::largest, format::specs::Basics::choose))]
fn freq_width(option: IndexRecordOption, values: &[u32; 128]) -> u8
    ensures { result ≡ packing.width (only_if (has_freq_of option) values.now) }
{
    if has_freq(option) {
        num_bits(values)
    } else {
        0
    }
}

// Whether an entry and its block fit their areas from these places on.
fn has_room(
    option: IndexRecordOption,
    info: BlockInfo,
    skips: &[u8],
    postings: &[u8],
    at: Places,
) -> bool
    ensures { result ≡ and (nat_le (at.skips + entry_size_of option) (length skips.now))
        (nat_le (at.postings + block_size_of info) (length postings.now)) }
{
    within(at.skips, entry_size(option), skips.len())
        && within(at.postings, block_size(info), postings.len())
}

// Packs values into an area from a place on, where they fit.
fn pack_at(values: &[u32; 128], width: u8, area: &mut [u8], at: usize)
    requires { (width ≤ 32) × (at + 16 * width ≤ length area.old) }
    ensures { area.new ≡ put_at at (packing.pack width values.now) area.old }
{
    pack(values, width, &mut area[at..]);
}

// Writes an entry and the values of its block, documents before frequencies, where both fit; the places behind them.
fn put_block(
    option: IndexRecordOption,
    info: BlockInfo,
    doc_values: &[u32; 128],
    freq_values: &[u32; 128],
    skips: &mut [u8],
    postings: &mut [u8],
    at: Places,
) -> Places
    requires { BlockFits option info at skips.old postings.old }
    ensures { BlockPut (write_entry_of option info)
        (packing.pack info.doc_width doc_values.now ++ packing.pack info.freq_width freq_values.now)
        at skips.old postings.old skips.new postings.new result }
{
    let freqs_at = at.postings + compressed_block_size(info.doc_width);
    pack_at(doc_values, info.doc_width, postings, at.postings);
    pack_at(freq_values, info.freq_width, postings, freqs_at);
    write_entry(option, info, skips, at.skips);
    Places {
        skips: at.skips + entry_size(option),
        postings: freqs_at + compressed_block_size(info.freq_width),
    }
}

// Writes a full block and its entry, where both fit; else nothing is written. It answers where the areas reach behind them. The areas
// stay two parameters, as the public calls have them: a struct of both would be made anew at each call.
pub(crate) fn write_block(
    option: IndexRecordOption,
    least: u32,
    docs: &[u32; 128],
    freqs: &[u32; 128],
    skips: &mut [u8],
    postings: &mut [u8],
    at: Places,
) -> Result<Places, Refusal>
    requires { rising least docs.now ≡ true }
    ensures { BlockWritten option least docs.now freqs.now at
        skips.old postings.old skips.new postings.new result }
{
    let mut doc_values = *docs;
    reduce_docs(&mut doc_values, least);
    let mut freq_values = *freqs;
    reduce_freqs(&mut freq_values);
    let info = BlockInfo {
        last_doc: last_of(docs),
        doc_width: num_bits(&doc_values),
        strict: true,
        freq_width: freq_width(option, &freq_values),
    };
    if !has_room(option, info, skips, postings, at) {
        return Err(Refusal::NoRoom);
    }
    Ok(put_block(option, info, &doc_values, &freq_values, skips, postings, at))
}
