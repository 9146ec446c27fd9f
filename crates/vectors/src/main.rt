// Replays images that the Rust wrote: each list is written again and compared byte by byte, and the Rust's image is read back.
//
// Standard input is the sample, at most 65,535 bytes, numbers with their lowest byte first: how many cases there are (2 bytes), then
// each case: mode (1), whether frequencies are recorded (1; 0 is no), documents (2, at most 512), bytes of the image (2), the ids (4
// each), the frequencies (4 each), the image.
//
// The file `stdin` was made by `cargo run --release --bin sample` in differential/, which has tantivy's own code, unchanged, write
// the images.
//
// Buffers are arrays, with room for the longest that is taken: no heap is used.

#![tactic(auto)]

mod replay;
mod sample;

ghost use Rattle.std.specs.Prelude.{◌≡◌};
ghost use Rattle.vectors.specs.Replay.{replayed};

use crate::replay::replay_case;
use crate::sample::{case_at, short_at};
use input::read_full;
use std::io;

// How many cases were replayed and how many of them differ.
#[derive(Clone, Copy)]
pub struct Replayed {
    pub cases: usize,
    pub differ: usize,
}

// Names a case that differs by its place, from 0. Where it can't be written the replay goes on: the line behind the last case has its
// number, and is written or ends the program with an error. It only prints, so that no contract of `replay_all` speaks of output.
fn tell_case(rt: &impl Print, place: usize) {
    let _ = println!(rt; "case {place} differs");
}

// Replays all cases, and tells those that differ; `None` where the input is no sample. The loop goes by places: where a case begins only
// the one before it says, and a case that differs is named by its place.
fn replay_all(rt: &impl Print, input: &[u8]) -> Option<Replayed>
    ensures { result ≡ replayed input.now }
{
    if input.len() < 2 {
        return None;
    }
    let cases = short_at(input, 0);
    let mut at = 2;
    let mut differ = 0;
    for i in 0..cases {
        let case = case_at(input, at)?;
        if !replay_case(input, case) {
            tell_case(rt, i);
            differ += 1;
        }
        at = case.end;
    }
    if at != input.len() {
        return None;
    }
    Some(Replayed { cases, differ })
}

// Tells what came of it, in one line.
fn tell(rt: &impl Print, replayed: Option<Replayed>) -> io::Result<()> {
    match replayed {
        Some(Replayed { cases, differ }) => {
            println!(rt; "{cases} images replayed, {differ} differ")
        }
        None => println!(rt; "malformed"),
    }
}

// An input that fills the buffer may go on behind it, and is no sample. A read that fails counts as the end of the input.
fn main(rt: HostRuntime) -> io::Result<()> {
    // Room for the longest sample, and one byte more, which shows that an input is longer.
    let mut input = [0u8; 65536];
    let n = read_full(&mut rt.stdin(), &mut input);
    if n == 65536 {
        return tell(&rt, None);
    }
    tell(&rt, replay_all(&rt, &input[..n]))
}
