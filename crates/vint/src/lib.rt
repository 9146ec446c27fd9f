// Short numbers (vints): seven bits a byte, lowest first, the top bit set on the last byte alone. The port of common/vint.rs and
// compression/vint.rs.

#![tactic(auto)]

ghost use Rattle.std.specs.Prelude.{◌≡◌, ◌+◌, ◌≤◌, length, drop};
ghost use Rattle.format.specs.Basics.{next_at, put_at};
ghost use Rattle.format.specs.Values.{gaps_from};
ghost use Rattle.format.specs.Vint.{read_vint_of, skip_length, tail_number, tail_numbers, vint, vints};
ghost use Rattle.vint.specs.Numbers.{behind, filled};
ghost use Rattle.vint.specs.Written.{number_written, numbers_written};

use common::within;

// The bit that marks a number's last byte.
const STOP_BIT: u8 = 128;

// The number at `at`, of at most `most` bytes and at most `largest`. A group that would carry the value above `largest` ends the
// reading before it is added, so that no bit is lost at the upper end. By places: over a slice cut to `most` bytes a tail took some 9 % longer.
fn read_vint(src: &[u8], at: usize, most: usize, largest: u64) -> Option<(u64, usize)>
    requires { most ≤ 10 }
    ensures { result ≡ read_vint_of most (largest + 1) (drop at src.now) }
{
    let bytes = src.get(at..)?;
    let mut value: u64 = 0;
    for used in 0..most {
        let byte = *bytes.get(used)?;
        let group = (byte % STOP_BIT) as u64;
        let shift = 7 * used;
        if (largest - value) >> shift < group {
            return None;
        }
        value += group << shift;
        if STOP_BIT <= byte {
            return Some((value, used + 1));
        }
    }
    None
}

// A tail's number, as a u64: a public signature stays. This and a skip length are public calls of their own: only here stands which limits
// each kind has.
#[tactic(auto, unfolding(format::specs::Vint::tail_number))]
pub fn read_vint_u32(src: &[u8], at: usize) -> Option<(u64, usize)>
    ensures { result ≡ tail_number (drop at src.now) }
{
    read_vint(src, at, 5, u32::MAX as u64)
}

// A skip length.
#[tactic(auto, unfolding(format::specs::Vint::skip_length))]
pub fn read_vint_u64(src: &[u8], at: usize) -> Option<(u64, usize)>
    ensures { result ≡ skip_length (drop at src.now) }
{
    read_vint(src, at, 10, u64::MAX)
}

// How many bytes `value` takes. Without a loop it is `(value | 1).ilog2() as usize / 7 + 1`, which is no plainer: of what `put_vint` does it
// shows nothing, and the `| 1` is there for 0 alone.
pub fn vint_size(value: u64) -> usize
    ensures { result ≡ length (vint value) }
{
    let mut rest = value;
    let mut size = 1;
    while 128 <= rest {
        rest /= 128;
        size += 1;
    }
    size
}

// The bytes of `value`, which fit, from `at` on; the place behind them. The loop counts it, since the value says where it ends, and no slice.
fn put_vint(value: u64, dst: &mut [u8], at: usize) -> usize
    requires { at + length (vint value) ≤ length dst.old }
    ensures value { result ≡ at + length (vint value) }
    ensures dst_after { dst.new ≡ put_at at (vint value) dst.old }
{
    let mut remaining = value;
    let mut i = at;
    while 128 <= remaining {
        dst[i] = (remaining % 128) as u8;
        remaining /= 128;
        i += 1;
    }
    dst[i] = remaining as u8 + STOP_BIT;
    i + 1
}

// The bytes of `value` from `at` on, where they fit.
#[tactic(auto, unfolding(format::specs::Basics::next_at, format::specs::Basics::put_at, format::specs::Basics::fits_at, format::specs::Basics::choose))]
pub fn write_vint(value: u64, dst: &mut [u8], at: usize) -> Option<usize>
    ensures value { result ≡ next_at at (vint value) dst.old }
    ensures dst_after { dst.new ≡ put_at at (vint value) dst.old }
{
    if !within(at, vint_size(value), dst.len()) {
        return None;
    }
    Some(put_vint(value, dst, at))
}

// What is written of a value: of sorted ones the difference to the one before, of others the value itself.
#[tactic(auto, unfolding(crate::specs::Written::number_written))]
fn written_number<const SORTED: bool>(previous: u32, value: u32) -> u32
    ensures { result ≡ number_written SORTED previous value }
{
    if SORTED {
        value.saturating_sub(previous)
    } else {
        value
    }
}

// How many bytes the numbers of `values` take; of sorted ones the first differs from `offset`.
fn size_of<const SORTED: bool>(values: &[u32], offset: u32) -> usize
    ensures { result ≡ length (vints (numbers_written SORTED offset values.now)) }
{
    let mut size = 0;
    let mut previous = offset;
    for &value in values {
        size += vint_size(written_number::<SORTED>(previous, value) as u64);
        previous = value;
    }
    size
}

// The numbers of `values` from `at` on, where all of them fit.
#[tactic(auto, unfolding(format::specs::Basics::next_at, format::specs::Basics::put_at, format::specs::Basics::fits_at, format::specs::Basics::choose))]
fn compress<const SORTED: bool>(
    values: &[u32],
    offset: u32,
    dst: &mut [u8],
    at: usize,
) -> Option<usize>
    ensures value { result ≡ next_at at (vints (numbers_written SORTED offset values.now)) dst.old }
    ensures dst_after { dst.new ≡ put_at at (vints (numbers_written SORTED offset values.now)) dst.old }
{
    if !within(at, size_of::<SORTED>(values, offset), dst.len()) {
        return None;
    }
    let mut next = at;
    let mut previous = offset;
    for &value in values {
        next = put_vint(written_number::<SORTED>(previous, value) as u64, dst, next);
        previous = value;
    }
    Some(next)
}

// How many bytes the differences of `docs` take, the first from `offset`.
#[tactic(auto, unfolding(crate::specs::Written::numbers_written))]
pub fn sorted_size(docs: &[u32], offset: u32) -> usize
    ensures { result ≡ length (vints (gaps_from 0 offset docs.now)) }
{
    size_of::<true>(docs, offset)
}

// How many bytes `values` take.
#[tactic(auto, unfolding(crate::specs::Written::numbers_written))]
pub fn unsorted_size(values: &[u32]) -> usize
    ensures { result ≡ length (vints values.now) }
{
    size_of::<false>(values, 0)
}

// The differences of `docs`, the first from `offset`, from `at` on, where all of them fit. This and the next stay public calls of a line
// each, as the sizes above: callers say by a name what they write, and their contracts by a definition without a flag.
#[tactic(auto, unfolding(crate::specs::Written::numbers_written))]
pub fn compress_sorted(docs: &[u32], offset: u32, dst: &mut [u8], at: usize) -> Option<usize>
    ensures value { result ≡ next_at at (vints (gaps_from 0 offset docs.now)) dst.old }
    ensures dst_after { dst.new ≡ put_at at (vints (gaps_from 0 offset docs.now)) dst.old }
{
    compress::<true>(docs, offset, dst, at)
}

// `values` from `at` on, where all of them fit.
#[tactic(auto, unfolding(crate::specs::Written::numbers_written))]
pub fn compress_unsorted(values: &[u32], dst: &mut [u8], at: usize) -> Option<usize>
    ensures value { result ≡ next_at at (vints values.now) dst.old }
    ensures dst_after { dst.new ≡ put_at at (vints values.now) dst.old }
{
    compress::<false>(values, 0, dst, at)
}

// As many numbers, from `at` on, as `values` has places. Those before a malformed one are stored too.
pub fn uncompress_unsorted(src: &[u8], at: usize, values: &mut [u32]) -> Option<usize>
    ensures value { result ≡ behind at (tail_numbers (length values.old) (drop at src.now)) }
    ensures values_after { values.new
        ≡ filled (tail_numbers (length values.old) (drop at src.now)) values.old }
{
    let mut next = at;
    for value in values.iter_mut() {
        let (number, used) = read_vint_u32(src, next)?;
        *value = number as u32;
        next += used;
    }
    Some(next)
}
