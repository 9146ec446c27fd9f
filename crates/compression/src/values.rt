// A block's ids and frequencies, and the values that stand for them in the strict form and in the non-strict one.

ghost use Rattle.std.specs.Prelude.{◌≡◌, true, ◌+◌, ◌-◌, ◌≤◌, ◌<◌, ◌^◌, length, take};
ghost use Rattle.format.specs.Model.{member};
ghost use Rattle.format.specs.Values as specs;
ghost use Rattle.compression.specs.Restored.{ending, first_difference_of, as_differences, Summed, DocsRestored};

use format::{Refusal, TERMINATED};

// What the strict form leaves out of each difference and each frequency.
#[tactic(auto, unfolding(format::specs::Values::reduction))]
pub fn reduction(strict: bool) -> u32
    ensures { result ≡ specs.reduction strict }
{
    u32::from(strict)
}

// The value of an id behind another one, strict form: 0 where it isn't above that one.
fn gap(doc: u32, before: u32) -> u32
    ensures { result ≡ doc - (before + 1) }
{
    doc.saturating_sub(before).saturating_sub(1)
}

// The values of ids, strict form, in their place. All in 32 bits: it becomes vector code.
pub fn reduce_docs(docs: &mut [u32; 128], least: u32)
    ensures { docs.new ≡ specs.gaps true least docs.old }
{
    let mut before = docs[0];
    docs[0] = before.saturating_sub(least);
    for value in &mut docs[1..] {
        let doc = *value;
        *value = gap(doc, before);
        before = doc;
    }
}

// The values of frequencies, strict form, in their place.
pub fn reduce_freqs(freqs: &mut [u32; 128])
    ensures { freqs.new ≡ specs.reduced true freqs.old }
{
    for value in freqs {
        *value = value.saturating_sub(1);
    }
}

// This and `restore_docs` are public, so their signatures stay: n beside the values, and the flag `nonzero`.

// Whether one of the first n values, of all of them where n is larger, is 0. Nothing in the loop branches: it becomes vector code.
// Tried: the library's `contains`. It is as fast, but stays a call, for which `restore_docs` then saves registers: 65 ns a block, not 60.
pub fn has_zero(values: &[u32], n: usize) -> bool
    ensures { result ≡ member 0 (take n values.now) }
{
    let mut found = false;
    for value in &values[..n.min(values.len())] {
        found |= *value == 0;
    }
    found
}

// The difference of a list's first id: one more than the id. An id that is too large has none, and 0 is refused as well.
#[tactic(auto, unfolding(crate::specs::Restored::first_difference_of, format::specs::Basics::choose))]
fn first_difference(id: u32) -> u32
    ensures { result ≡ first_difference_of id }
{
    if id < TERMINATED { id + 1 } else { 0 }
}

// The non-strict form has a list's first id whole: it becomes a difference as the other values are.
#[tactic(auto, unfolding(crate::specs::Restored::as_differences, crate::specs::Restored::first_difference_of, format::specs::Basics::choose))]
pub fn first_as_difference(values: &mut [u32], least: u32)
    ensures { values.new ≡ as_differences least values.old }
{
    if least == 0 {
        if let Some(first) = values.first_mut() {
            *first = first_difference(*first);
        }
    }
}

// The sums of values on top of before, in their place, and the last sum. A turn waits for one addition of the turn before, and tests
// nothing. The low 32 bits are by `%`, since a cast may lose none; a function for them would say no more.
fn sum(values: &mut [u32], before: u64) -> u64
    requires { (length values.old ≤ 128) × (before < 2 ^ 32) }
    ensures { Summed before values.old values.new result }
{
    let mut last = before;
    for value in values {
        last += u64::from(*value);
        *value = (last % 4294967296) as u32;
    }
    last
}

// Question 6 of ids of which no two are the same, by the last one.
#[tactic(auto, unfolding(crate::specs::Restored::ending, format::specs::Basics::ask))]
fn ending(last: u64) -> Result<u32, Refusal>
    ensures { result ≡ ending last }
{
    if last < u64::from(TERMINATED) {
        Ok(last as u32)
    } else {
        Err(Refusal::DocsNotRising)
    }
}

// The ids of the first n differences, all of them where n is larger, in their place; question 6, and the last id, 0 where there is
// none. Ids are sums of differences, so they rise where no difference is 0, and then the last one says whether all lie below
// TERMINATED. A caller that knows that none is 0 says so.
pub fn restore_docs(
    values: &mut [u32; 128],
    n: usize,
    nonzero: bool,
    least: u32,
) -> Result<u32, Refusal>
    ensures { DocsRestored least n nonzero values.old values.new result }
{
    let m = n.min(128);
    if m == 0 {
        return Ok(0);
    }
    if !nonzero && has_zero(values, m) {
        return Err(Refusal::DocsNotRising);
    }
    // the difference of a list's first id is one more than the id
    if least == 0 {
        values[0] = values[0].saturating_sub(1);
    }
    let before = u64::from(least.saturating_sub(1));
    ending(sum(&mut values[..m], before))
}
