// One case: the list written again, and the Rust's image read back.

ghost use Rattle.std.specs.Prelude.{◌≡◌, ◌≤◌, length};
ghost use Rattle.vectors.specs.Replay.{zeros, read_freq_of, shows_doc, reads_back_of, writes_image, agrees, case_agrees, Within};

use crate::sample::{Case, words_at};
use format::{Refusal, TERMINATED, Term};
use segment_postings::validate::validate;
use segment_postings::{Answer, advance, open};
use serializer::write_list;
use skip::{has_freq, record_option};

// The frequency that a reader is answered: 1 where it isn't kept.
#[tactic(auto, unfolding(crate::specs::Replay::read_freq_of))]
fn read_freq(kept: bool, freq: u32) -> u32
    ensures { result ≡ read_freq_of kept freq }
{
    if kept { freq } else { 1 }
}

// Whether an answer has this document and this frequency.
#[tactic(auto, unfolding(crate::specs::Replay::shows_doc))]
fn shows(answer: Result<Answer, Refusal>, doc: u32, freq: u32) -> bool
    ensures { result ≡ shows_doc answer doc freq }
{
    match answer {
        Ok(at) => at.doc == doc && at.freq == freq,
        Err(_) => false,
    }
}

// A list as `write_list` takes it, and the Rust's image of it.
#[derive(Clone, Copy)]
struct ListAndImage<'a> {
    mode: u8,
    recording: bool,
    ids: &'a [u32],
    freqs: &'a [u32],
    image: &'a [u8],
}

impl<'a> ListAndImage<'a> {
    // Whether a walk by steps over the image answers the list's documents, their frequencies, and then the end.
    fn reads_back(&self) -> bool
        requires { (length self.now.ids.now ≤ 512) × (length self.now.ids.now ≡ length self.now.freqs.now) }
        ensures { result ≡ reads_back_of self.now.mode self.now.recording self.now.ids.now self.now.freqs.now self.now.image.now }
    {
        let kept = has_freq(record_option(self.mode, self.recording));
        let term = Term {
            mode: self.mode,
            requested: 1,
            count: self.ids.len() as u32,
        };
        let mut moved = open(self.image, term);
        for (&id, &freq) in self.ids.iter().zip(self.freqs) {
            if !shows(moved.answer, id, read_freq(kept, freq)) {
                return false;
            }
            moved = advance(moved.cursor, self.image, term);
        }
        shows(moved.answer, TERMINATED, 0)
    }

    // Whether the list is written as the image, into areas that are lent.
    fn writes_into(&self, skips: &mut [u8], postings: &mut [u8], output: &mut [u8]) -> bool
        ensures { result ≡ writes_image self.now.mode self.now.recording self.now.ids.now self.now.freqs.now self.now.image.now
            skips.old postings.old output.old }
    {
        match write_list(
            self.mode,
            self.recording,
            self.ids,
            self.freqs,
            skips,
            postings,
            output,
        ) {
            Ok(n) => &output[..n] == self.image,
            Err(_) => false,
        }
    }

    // Whether the list is written as the image. The areas have room for any list of 512 documents.
    #[tactic(auto, unfolding(crate::specs::Replay::zeros))]
    fn writes(&self) -> bool
        ensures { result ≡ writes_image self.now.mode self.now.recording self.now.ids.now self.now.freqs.now self.now.image.now
            (zeros 32) (zeros 4032) (zeros 8192) }
    {
        let mut skips = [0u8; 32];
        let mut postings = [0u8; 4032];
        let mut output = [0u8; 8192];
        self.writes_into(&mut skips, &mut postings, &mut output)
    }

    // Whether all agrees: the list is written as the image, which reads back as the list and is sound.
    #[tactic(auto, unfolding(crate::specs::Replay::agrees))]
    fn agrees(&self) -> bool
        requires { (length self.now.ids.now ≤ 512) × (length self.now.ids.now ≡ length self.now.freqs.now) }
        ensures { result ≡ agrees self.now.mode self.now.recording self.now.ids.now self.now.freqs.now self.now.image.now }
    {
        self.writes()
            && self.reads_back()
            && validate(self.image, self.mode, self.ids.len() as u32).is_ok()
    }
}

// Replays a case of the sample.
#[tactic(auto, unfolding(crate::specs::Replay::case_agrees))]
pub(crate) fn replay_case(input: &[u8], case: Case) -> bool
    requires { Within input.now case }
    ensures { result ≡ case_agrees input.now case }
{
    let ids = words_at(input, case.docs, case.count);
    let freqs = words_at(input, case.freqs, case.count);
    let replayed = ListAndImage {
        mode: case.mode,
        recording: case.recording,
        ids: &ids[..case.count],
        freqs: &freqs[..case.count],
        image: &input[case.image..case.end],
    };
    replayed.agrees()
}
