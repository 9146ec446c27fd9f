// Question 16 of document 01: whether the numbers of a lent state are in bounds. It is asked of every waiting document at each call, so
// its loops have no branch inside: they become vector code. Each no is a return of its own: the proof goes by which
// test said it, and doesn't fit one chain of `&&`.

ghost use Rattle.std.specs.Prelude.{◌≡◌, ℕ, ◌<◌, ◌≤◌, not, ◌&&◌ as and, ◌||◌ as or, List, length};
ghost use Rattle.format.specs.Accepted.{kept_in};
ghost use Rattle.format.specs.SkipEntry.{has_freq_of};
ghost use Rattle.format.specs.Values.{rising, countable};
ghost use Rattle.serializer.specs.Calls.{state_of};
ghost use Rattle.serializer.specs.Pieces.{climbing};
ghost use Rattle.serializer.specs.Writer.{bounds_hold, first_least_of};

use crate::Progress;
use crate::block::last_of;
use format::{IndexRecordOption, TERMINATED};
use skip::{has_freq, known_mode, record_option};

// Whether each id lies above the one before it. An index, since `zip` and `windows` take a tenth longer (they become vector code too), and `all`
// three times as long.
fn climbs(docs: &[u32]) -> bool
    requires { 0 < length docs.now }
    ensures { result ≡ climbing docs.now }
{
    let mut above = true;
    for i in 1..docs.len() {
        above &= docs[i - 1] < docs[i];
    }
    above
}

// .. and each frequency is at least 1: one loop over both is faster than two, and by an index faster than by a `zip`, as above.
fn climbs_counted(docs: &[u32], freqs: &[u32]) -> bool
    requires { (0 < length docs.now) × (length docs.now ≡ length freqs.now) }
    ensures { result ≡ and (climbing docs.now) (countable freqs.now) }
{
    let mut holds = freqs[0] != 0;
    for i in 1..docs.len() {
        holds &= docs[i - 1] < docs[i];
        holds &= freqs[i] != 0;
    }
    holds
}

// Whether waiting ids rise strictly from `least` on, below TERMINATED, and their frequencies, where these are kept, are at least 1. Where
// each id lies above the one before it, the first and the last decide.
fn documents_wait(option: IndexRecordOption, docs: &[u32], freqs: &[u32], least: u64) -> bool
    requires { length docs.now ≡ length freqs.now }
    ensures { result ≡ and (rising least docs.now) (or (not (has_freq_of option)) (countable freqs.now)) }
{
    if docs.is_empty() {
        return true;
    }
    if (docs[0] as u64) < least {
        return false;
    }
    if TERMINATED <= last_of(docs) {
        return false;
    }
    if has_freq(option) {
        climbs_counted(docs, freqs)
    } else {
        climbs(docs)
    }
}

// The arrays stay two parameters beside the numbers: some calls lend them to read, others to write.
impl Progress {
    // What the term keeps.
    pub(crate) fn option(self) -> IndexRecordOption
        ensures { result ≡ kept_in self.mode self.recording }
    {
        record_option(self.mode, self.recording)
    }

    // The least id that the first waiting document may have; 2 ^ 32 where the last block's last id is the largest number of 32 bits.
    #[tactic(auto, unfolding(crate::specs::Writer::first_least_of, crate::specs::Calls::state_of, format::specs::Basics::choose))]
    pub(crate) fn first_least(self) -> u64
        ensures { (docs freqs : List ℕ) → result ≡ first_least_of (state_of self docs freqs) }
    {
        if self.waiting < self.taken as usize {
            self.last_doc as u64 + 1
        } else {
            0
        }
    }

    // Whether a state is in bounds, by the lengths of the two areas.
    pub(crate) fn in_bounds(
        self,
        docs: &[u32; 128],
        freqs: &[u32; 128],
        skips: usize,
        postings: usize,
    ) -> bool
        ensures { result ≡ bounds_hold (state_of self docs.now freqs.now) skips postings }
    {
        let waiting = self.waiting;
        if 127 < waiting {
            return false;
        }
        let least = self.first_least();
        if !documents_wait(self.option(), &docs[..waiting], &freqs[..waiting], least) {
            return false;
        }
        if TERMINATED < self.taken {
            return false;
        }
        if skips < self.skips_at {
            return false;
        }
        if postings < self.postings_at {
            return false;
        }
        known_mode(self.mode)
    }
}
