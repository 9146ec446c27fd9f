// A list of calls on one cursor, for Rust and C.

ghost use Rattle.postings.specs.RunCalls.{Runs};

use format::Term;
use postings::run_calls;

// Opens a list and makes calls on its cursor, coded as `run_calls` says: how many answers were written, and 0 where none was.
#[unsafe(no_mangle)]
pub extern "C" fn vilthorwy_run_calls(
    mode: u8,
    requested: u8,
    count: u32,
    image: &[u8],
    calls: &[u64],
    answers: &mut [u64],
) -> u64
    ensures { Runs image.now (record { mode = mode; requested = requested; count = count }) calls.now
        answers.old answers.new result }
{
    let term = Term {
        mode,
        requested,
        count,
    };
    run_calls(image, term, calls, answers) as u64
}
