// A list of calls on one cursor, coded as numbers, with their answers as numbers.

ghost use Rattle.std.specs.Prelude.{true, ◌≡◌, map, ◌+◌, ◌*◌, ◌≤◌, length};
ghost use Rattle.format.specs.Basics.{put_at};
ghost use Rattle.segment_postings.specs.Called.{called, calls_from, answer_length, numbers, all_numbers};
ghost use Rattle.postings.specs.RunCalls.{call_of, all_known, meant, Decodes, Runs};

use format::{Refusal, Term};
use segment_postings::{
    Answer, Moved, SegmentPostings, advance, advance_by_lending, open, seek, seek_by_lending,
};

// How many numbers an answer is, and their places: a refusal's number or 0, document, frequency, blocks unpacked, entries read, and 1 for a
// hit, else 0.
pub const ANSWER_NUMBERS: usize = 6;

pub const REFUSAL_PLACE: usize = 0;

pub const DOC_PLACE: usize = 1;

pub const FREQ_PLACE: usize = 2;

pub const UNPACKED_PLACE: usize = 3;

pub const ENTRIES_PLACE: usize = 4;

pub const HIT_PLACE: usize = 5;

// A call that a number codes.
#[derive(Clone, Copy)]
enum Coded {
    Advance,
    Seek(u32),
    AdvanceByLending,
    SeekByLending(u32),
}

// What a number codes, if its kind is known: it is kind * 2 ^ 32 + target, and an advance ignores the target. It is no `TryFrom`, whose
// error would be a type that nothing reads; and `%` gives the low half, since `as` may lose no bits.
#[tactic(auto, unfolding(crate::specs::RunCalls::kind_of, crate::specs::RunCalls::target_of, crate::specs::RunCalls::call_of, crate::specs::RunCalls::meant, format::specs::Basics::choose))]
fn decode(code: u64) -> Option<Coded>
    ensures { Decodes code result }
{
    let target = (code % 4294967296) as u32;
    match code / 4294967296 {
        0 => Some(Coded::Advance),
        1 => Some(Coded::Seek(target)),
        2 => Some(Coded::AdvanceByLending),
        3 => Some(Coded::SeekByLending(target)),
        _ => None,
    }
}

// Whether every kind is known.
fn kinds_known(calls: &[u64]) -> bool
    ensures { result ≡ all_known calls.now }
{
    calls.iter().all(|&code| decode(code).is_some())
}

// Makes one call: by value, or on a lent cursor. Each arm returns: as the value of the `match` a cursor would be copied once more, by half.
#[tactic(auto, unfolding(segment_postings::specs::Called::called, crate::specs::RunCalls::meant))]
fn make_call(cursor: SegmentPostings, image: &[u8], term: Term, call: Coded) -> Moved
    ensures { result ≡ called cursor image.now term (meant call) }
{
    match call {
        Coded::Advance => return advance(cursor, image, term),
        Coded::Seek(target) => return seek(cursor, image, term, target),
        Coded::AdvanceByLending => return advance_by_lending(cursor, image, term),
        Coded::SeekByLending(target) => return seek_by_lending(cursor, image, term, target),
    }
}

// An answer's numbers, each in its place; the others are 0. By the places' names and not in one expression: so a name that callers go by
// can't come to mean another place.
#[tactic(auto, unfolding(segment_postings::specs::Called::numbers))]
fn numbers_of(answer: Result<Answer, Refusal>) -> [u64; ANSWER_NUMBERS]
    ensures { result ≡ numbers answer }
{
    let mut numbers = [0; ANSWER_NUMBERS];
    match answer {
        Ok(a) => {
            numbers[DOC_PLACE] = a.doc as u64;
            numbers[FREQ_PLACE] = a.freq as u64;
            numbers[UNPACKED_PLACE] = a.unpacked as u64;
            numbers[ENTRIES_PLACE] = a.entries as u64;
            numbers[HIT_PLACE] = u64::from(a.hit);
        }
        Err(refusal) => numbers[REFUSAL_PLACE] = refusal.number() as u64,
    }
    numbers
}

// Writes an answer, at a place that `run_from` computes.
fn put_answer(answer: Result<Answer, Refusal>, answers: &mut [u64], at: usize)
    requires { at + answer_length ≤ length answers.old }
    ensures { answers.new ≡ put_at at (numbers answer) answers.old }
{
    let numbers = numbers_of(answer);
    answers[at..at + ANSWER_NUMBERS].copy_from_slice(&numbers);
}

// Makes the calls in order, each on the cursor as the last one left it, and writes their answers behind opening's. Each answer's place
// is computed, since no clause of the library says what `as_chunks_mut` leaves in the slice.
fn run_from(opened: Moved, image: &[u8], term: Term, calls: &[u64], answers: &mut [u64])
    requires { (all_known calls.now ≡ true) × (answer_length * (length calls.now + 1) ≤ length answers.old) }
    ensures { answers.new ≡ put_at answer_length (all_numbers (calls_from image.now term opened.cursor (map call_of calls.now))) answers.old }
{
    let mut moved = opened;
    for (i, &code) in calls.iter().enumerate() {
        let call = decode(code).unwrap();
        moved = make_call(moved.cursor, image, term, call);
        put_answer(moved.answer, answers, ANSWER_NUMBERS * (i + 1));
    }
}

// Opens a list and makes calls on its cursor, one number each: kind * 2 ^ 32 + target. Kind 0 advances and 1 seeks by value, 2 advances
// and 3 seeks on a lent cursor. Each answer is `ANSWER_NUMBERS` numbers, opening's first. It answers how many answers were written, 1
// after a refused opening; and 0, with nothing written, where there are too few places for all of them or a kind is unknown. That is a
// true count in each case, so it is no `Option`.
pub fn run_calls(image: &[u8], term: Term, calls: &[u64], answers: &mut [u64]) -> usize
    ensures { Runs image.now term calls.now answers.old answers.new result }
{
    if answers.len() / ANSWER_NUMBERS <= calls.len() || !kinds_known(calls) {
        return 0;
    }
    let opened = open(image, term);
    let answer = opened.answer;
    put_answer(answer, answers, 0);
    let Ok(_) = answer else {
        return 1;
    };
    run_from(opened, image, term, calls, answers);
    calls.len() + 1
}
