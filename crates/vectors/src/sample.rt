// The sample's layout: where the parts of a case are, and the numbers in it.

ghost use Rattle.std.specs.Prelude.{◌≡◌, ◌+◌, ◌*◌, ◌≤◌, ◌<◌, length, take};
ghost use Rattle.format.specs.Basics.{four_bytes};
ghost use Rattle.vectors.specs.Sample.{short, words, case_at};

use common::u32_from_le_bytes;

// A case: its head, where its parts begin, and where it ends.
#[derive(Clone, Copy)]
pub struct Case {
    pub mode: u8,
    pub recording: bool,
    pub count: usize,
    pub docs: usize,
    pub freqs: usize,
    pub image: usize,
    pub end: usize,
}

// The 16-bit number at place `at`.
#[tactic(auto, unfolding(crate::specs::Sample::short))]
pub(crate) fn short_at(input: &[u8], at: usize) -> usize
    requires { at + 2 ≤ length input.now }
    ensures { (result ≡ short input.now at) × (result < 65536) }
{
    u16::from_le_bytes([input[at], input[at + 1]]) as usize
}

// The 32-bit number at place `at`. A shared function for it would want a `requires` or a test (crates/common/src/lib.rt).
fn word_at(input: &[u8], at: usize) -> u32
    requires { at + 4 ≤ length input.now }
    ensures { result ≡ four_bytes input.now at }
{
    u32_from_le_bytes(input[at], input[at + 1], input[at + 2], input[at + 3])
}

// So many 32-bit numbers from place `at` on. Each stands at a place that the loop counts: over `iter_mut` the proof didn't close.
pub(crate) fn words_at(input: &[u8], at: usize, count: usize) -> [u32; 512]
    requires { (count ≤ 512) × (at + 4 * count ≤ length input.now) }
    ensures { (length result ≡ 512) × (take count result ≡ words input.now at count) }
{
    let mut values = [0u32; 512];
    for i in 0..count {
        values[i] = word_at(input, at + 4 * i);
    }
    values
}

// The case at place `at`; `None` where it isn't all there.
#[tactic(auto, unfolding(crate::specs::Sample::case_at, crate::specs::Sample::case_of, crate::specs::Sample::short, format::specs::Basics::choose))]
pub(crate) fn case_at(input: &[u8], at: usize) -> Option<Case>
    requires { at ≤ length input.now }
    ensures { result ≡ case_at input.now at }
{
    if input.len() - at < 6 {
        return None;
    }
    let count = short_at(input, at + 2);
    if 512 < count {
        return None;
    }
    let docs = at + 6;
    let freqs = docs + 4 * count;
    let image = freqs + 4 * count;
    let end = image + short_at(input, at + 4);
    if input.len() < end {
        return None;
    }
    Some(Case {
        mode: input[at],
        recording: input[at + 1] != 0,
        count,
        docs,
        freqs,
        image,
        end,
    })
}
