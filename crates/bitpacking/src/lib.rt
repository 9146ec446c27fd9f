// 128 values at one width, in four lanes of 32-bit words: `BitPacker4x` of the Rust crate bitpacking, whose packed form document 01 gives.
// Blocks, rows and lanes are arrays of a fixed length, since no heap is used. Closures over lanes go by the lane's number: each reads of
// several lists at it. A width stays a number, `w ≤ 32` in the contracts: of a struct each sum and shift would take it out again. So does a
// place that leaves room, `p + 4 ≤ length`: at each call it is another one.

#![tactic(auto)]

ghost use Rattle.std.specs.Prelude.{◌≡◌, ℕ, ◌+◌, ◌*◌, ◌%◌, ◌^◌, ◌≤◌, ◌<◌, map, length};
ghost use Rattle.format.specs.Basics.{four_bytes, tabulate};
ghost use Rattle.format.specs.Bitpacking.{packed_at, bits_f, width};
ghost use Rattle.format.specs.Bitpacking as packing;
ghost use Rattle.bitpacking.specs.Packed.{room_for, with_more_of, Unpacked, Packed, BlockThere, RowThere, LeftAt, more_at, words_from, bits_taken_of, Fills, WordIs, WordsAre, LanesAt, RowPacks, RowAdded, words_taken_of, filled};

use common::{u32_from_le_bytes, u32_to_le_bytes};
use std::array;

// The word at byte p. By `first_chunk` it would be an Option, though p is known to leave room.
fn word_at(bytes: &[u8], p: usize) -> u32
    requires { p + 4 ≤ length bytes.now }
    ensures { result ≡ four_bytes bytes.now p }
{
    u32_from_le_bytes(bytes[p], bytes[p + 1], bytes[p + 2], bytes[p + 3])
}

// What is left of the words read last, one of each lane: the lanes' next bits, the same number of each. The words behind them lie
// side by side from byte `at` on.
#[derive(Clone, Copy)]
struct Left {
    rests: [u32; 4],
    bits: u32,
    at: usize,
}

// The words from byte p on, nothing taken of them.
#[tactic(auto, using(crate::proofs::Filled::four_of), unfolding(crate::specs::Packed::words_from, format::specs::Basics::word))]
fn words_at(bytes: &[u8], p: usize) -> Left
    requires { p + 16 ≤ length bytes.now }
    ensures { result ≡ words_from bytes.now p }
{
    let rests = array::from_fn(|m| word_at(bytes, p + 4 * m));
    Left {
        rests,
        bits: 32,
        at: p + 16,
    }
}

// What is left behind the next k bits of each lane. `words_taken` is of the same form, but its lanes are of 64 bits, and it counts words.
#[tactic(auto, unfolding(crate::specs::Packed::bits_taken_of))]
fn bits_taken(left: Left, k: u32) -> Left
    requires { (k ≤ left.bits) × (k < 32) }
    ensures { result ≡ bits_taken_of k left }
{
    let rests = left.rests.map(|rest| rest >> k);
    Left {
        rests,
        bits: left.bits - k,
        at: left.at,
    }
}

// The lowest w bits.
#[tactic(auto, using(crate::proofs::Shifts::masked_lowest))]
fn lowest(x: u32, w: u32) -> u32
    requires { (1 ≤ w) × (w ≤ 32) }
    ensures { result ≡ x % 2 ^ w }
{
    x & (u32::MAX >> (32 - w))
}

// The value of w bits that begins with what is left of a lane, so many bits, and goes on in the lane's next word. What the shift drops
// lies above it.
#[tactic(auto, using(crate::proofs::Shifts::joined))]
fn value_across(rest: u32, word: u32, bits: u32, w: u32) -> u32
    requires { (rest < 2 ^ bits) × (bits < 32) × (1 ≤ w) × (w ≤ 32) }
    ensures { result ≡ (rest + word * 2 ^ bits) % 2 ^ w }
{
    lowest(rest | (word << bits), w)
}

// The low 32 bits: a cast may lose none. `compression` and `postings` write it out: a shared function would say no more.
fn low(x: u64) -> u32
    ensures { result ≡ x % 2 ^ 32 }
{
    (x % 4294967296) as u32
}

// Four items side by side from place p on. `copy_from_slice` compiles to more: the four go by the stack, with a test whether they overlap
// the list.
#[tactic(auto, using(crate::proofs::Filled::fill_four, crate::proofs::Filled::at_four))]
fn put_four<T: Copy>(list: &mut [T], p: usize, four: [T; 4])
    requires { p + 4 ≤ length list.old }
    ensures { (f : ℕ → T) → four ≡ tabulate 4 (λ m. f (p + m)) → Fills p (p + 4) f list.old list.new }
{
    list[p] = four[0];
    list[p + 1] = four[1];
    list[p + 2] = four[2];
    list[p + 3] = four[3];
}

// Four values side by side from place p on, `more` added to each.
#[tactic(auto, unfolding(crate::specs::Packed::with_more_of))]
fn put_row(values: &mut [u32], p: usize, row: [u32; 4], more: u32)
    requires { p + 4 ≤ length values.old }
    ensures { (f : ℕ → ℕ) → map (with_more_of more) row ≡ tabulate 4 (λ m. f (p + m)) → Fills p (p + 4) f values.old values.new }
{
    put_four(values, p, row.map(|value| value.wrapping_add(more)));
}

// The four values of a row, one of each lane: within what is left, or where that has too few bits, across into the next words. Answers
// what is left behind them. (A struct of `bytes`, `w` and `more` would be taken apart again here, and be passed by nothing but the loop.)
fn unpack_row(
    left: Left,
    bytes: &[u8],
    row: usize,
    w: u32,
    more: u32,
    values: &mut [u32; 128],
) -> Left
    requires { RowThere w row bytes.now left }
    ensures left_at { LeftAt w (row + 1) bytes.now result }
    ensures fills { Fills (4 * row) (4 * row + 4) (more_at w more bytes.now) values.old values.new }
{
    let bits = left.bits;
    let rests = left.rests;
    if w <= bits {
        put_row(values, 4 * row, rests.map(|rest| lowest(rest, w)), more);
        return bits_taken(left, w);
    }
    let next = words_at(bytes, left.at);
    let words = next.rests;
    put_row(
        values,
        4 * row,
        array::from_fn(|m| value_across(rests[m], words[m], bits, w)),
        more,
    );
    // These may be all 32 bits of the words, and no shift goes so far at once.
    bits_taken(bits_taken(next, w - bits - 1), 1)
}

// All rows of a block whose values have bits. `pack_rows`, its inverse, is of the same form, but what a turn does and passes on is another.
// By number, since the library doesn't say of `as_chunks_mut` what the slice ends as.
#[tactic(auto, using(crate::proofs::Filled::fill_none, crate::proofs::Rows::none_left))]
fn unpack_rows(bytes: &[u8], w: usize, more: u32, values: &mut [u32; 128])
    requires { BlockThere w bytes.now }
    ensures { values.new ≡ map (with_more_of more) (packing.unpack w bytes.now) }
{
    let mut left = Left {
        rests: [0; 4],
        bits: 0,
        at: 0,
    };
    for row in 0..32 {
        left = unpack_row(left, bytes, row, w as u32, more, values);
    }
}

// Whether a block of width w is within n bytes: the width is at most 32, with 16 bytes for each bit of it.
#[tactic(auto, unfolding(crate::specs::Packed::room_for))]
fn has_room(w: usize, n: usize) -> bool
    ensures { result ≡ room_for w n }
{
    w <= 32 && 16 * w <= n
}

// Reads the 128 values of the block that begins `bytes`, adds `more` to each, modulo 2 ^ 32, and answers whether the block is there.
// Where it isn't, `values` stays as it was. This and `pack` answer it, though our callers know: no public function has a `requires`.
#[tactic(auto, using(crate::proofs::Room::unpacked), unfolding(crate::specs::Packed::room_for, format::specs::Basics::choose))]
pub fn unpack(bytes: &[u8], width: u8, more: u32, values: &mut [u32; 128]) -> bool
    ensures { Unpacked width more bytes.now values.old values.new result }
{
    let w = width as usize;
    if !has_room(w, bytes.len()) {
        return false;
    }
    if w == 0 {
        *values = [more; 128];
    } else {
        unpack_rows(bytes, w, more, values);
    }
    true
}

// The word x at byte p of the area, lowest byte first.
fn put_word(area: &mut [u8], p: usize, x: u32)
    requires { p + 4 ≤ length area.old }
    ensures { (f : ℕ → ℕ) → WordIs f p x → Fills p (p + 4) f area.old area.new }
{
    put_four(area, p, u32_to_le_bytes(x));
}

// What is packed so far of the four lanes and not yet written: the same number of bits of each, less than a word, above as many
// words already in the area.
#[derive(Clone, Copy)]
struct Lanes {
    held: [u64; 4],
    bits: usize,
    words: usize,
}

// A value's lowest w bits, above the `bits` that a lane holds.
#[tactic(auto, using(crate::proofs::Shifts::one_shifted, crate::proofs::Shifts::masked_shift))]
fn with_value(lane: u64, value: u32, bits: usize, w: usize) -> u64
    requires { (lane < 2 ^ 32) × (bits < 32) × (w ≤ 32) }
    ensures { result ≡ lane + value % 2 ^ w * 2 ^ bits }
{
    lane + (((value as u64) & ((1 << w) - 1)) << bits)
}

// A word of each lane, side by side from byte p on.
fn put_words(area: &mut [u8], p: usize, words: [u32; 4])
    requires { p + 16 ≤ length area.old }
    ensures { (f : ℕ → ℕ) → WordsAre f p words → Fills p (p + 16) f area.old area.new }
{
    for (m, &word) in words.iter().enumerate() {
        put_word(area, p + 4 * m, word);
    }
}

// The lanes with their lowest word taken off.
#[tactic(auto, unfolding(crate::specs::Packed::words_taken_of))]
fn words_taken(lanes: Lanes) -> Lanes
    requires { (32 ≤ lanes.bits) × (lanes.words < 32) }
    ensures { result ≡ words_taken_of lanes }
{
    let held = lanes.held.map(|lane| lane >> 32);
    Lanes {
        held,
        bits: lanes.bits - 32,
        words: lanes.words + 1,
    }
}

// The lanes with a row of values above what they hold.
fn with_row(lanes: Lanes, values: &[u32; 128], row: usize, w: usize) -> Lanes
    requires { RowPacks w row values.now lanes }
    ensures { RowAdded w row values.now lanes result }
{
    let before = lanes.held;
    let held = array::from_fn(|m| with_value(before[m], values[4 * row + m], lanes.bits, w));
    Lanes {
        held,
        bits: lanes.bits + w,
        words: lanes.words,
    }
}

// Packs a row, and writes the words that it fills.
fn pack_row(lanes: Lanes, values: &[u32; 128], row: usize, w: usize, area: &mut [u8]) -> Lanes
    requires { RowPacks w row values.now lanes × (16 * w ≤ length area.old) }
    ensures lanes_at { LanesAt w (row + 1) values.now result }
    ensures fills { Fills (16 * lanes.words) (16 * result.words) (packed_at w values.now) area.old area.new }
{
    let next = with_row(lanes, values, row, w);
    if next.bits < 32 {
        return next;
    }
    put_words(area, 16 * next.words, next.held.map(low));
    words_taken(next)
}

// All rows. Over `as_chunks` it would be no plainer: the contracts of a row tell of the lanes by all values and the row's number, and would
// have to name both beside the row's four values.
fn pack_rows(values: &[u32; 128], w: usize, area: &mut [u8])
    requires { (w ≤ 32) × (16 * w ≤ length area.old) }
    ensures { area.new ≡ filled (16 * w) (packed_at w values.now) area.old }
{
    let mut lanes = Lanes {
        held: [0; 4],
        bits: 0,
        words: 0,
    };
    for row in 0..32 {
        lanes = pack_row(lanes, values, row, w, area);
    }
}

// Packs 128 values at a width into the front of the area, 16 bytes for each bit; of a value its lowest bits count. Answers whether
// that was done; an area without room, or one for a width above 32, stays as it was.
#[tactic(auto, unfolding(crate::specs::Packed::room_for, format::specs::Basics::choose))]
pub fn pack(values: &[u32; 128], width: u8, area: &mut [u8]) -> bool
    ensures { Packed width values.now area.old area.new result }
{
    let w = width as usize;
    if !has_room(w, area.len()) {
        return false;
    }
    pack_rows(values, w, area);
    true
}

// The bits that any of some numbers has, as a number: it has as many bits as the largest of them. `|` of four numbers is one instruction,
// and the larger of unsigned ones takes several.
#[tactic(auto, using(crate::proofs::Width::bits_of_all))]
fn bits_of_any(values: &[u32]) -> u32
    ensures { bits_f 32 result ≡ width values.now }
{
    values.iter().fold(0, |any, &value| any | value)
}

// The width of 128 values: the bits of the largest, 0 if all are 0.
#[tactic(auto, using(crate::proofs::Width::bits_are))]
pub fn num_bits(values: &[u32; 128]) -> u8
    ensures { result ≡ width values.now }
{
    (u32::BITS - bits_of_any(values).leading_zeros()) as u8
}
