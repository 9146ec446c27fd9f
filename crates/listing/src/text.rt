// The lines of a listing.

ghost use Rattle.std.specs.Prelude.{◌+◌, ◌≤◌, length};
ghost use Rattle.segment_postings.specs.Called.{shown};
ghost use Rattle.listing.specs.Output.{field, line, Puts};

use common::put;
use format::Refusal;
use segment_postings::Answer;

// Puts a number's decimal digits and the byte behind them.
fn put_number(number: u64, behind: u8, output: &mut [u8], at: usize) -> usize
    requires { at + 21 ≤ length output.old }
    ensures { Puts (field number behind) at output.old output.new result }
{
    let mut digits = [0u8; 20];
    let size = io::decimal(number, &mut digits);
    let next = put(&digits[..size], output, at).unwrap();
    output[next] = behind;
    next + 1
}

// Puts the line of an answer; a refusal has none.
pub(crate) fn put_answer(answer: Result<Answer, Refusal>, output: &mut [u8], at: usize) -> usize
    requires { at + 63 ≤ length output.old }
    ensures { Puts (line (shown answer)) at output.old output.new result }
{
    let Ok(answer) = answer else {
        return at;
    };
    let next = put_number(answer.doc as u64, b' ', output, at);
    let last = put_number(answer.freq as u64, b' ', output, next);
    put_number(answer.unpacked as u64, b'\n', output, last)
}
