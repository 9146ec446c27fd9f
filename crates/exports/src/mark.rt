// One number for each answer: by the mark a caller tells a refusal from a number that it asked for.

ghost use Rattle.std.specs.Prelude.{◌≡◌};
ghost use Rattle.exports.specs.Exports.{coded, marked};

use format::Refusal;

// A refusal as 2 ^ 63 and its number.
fn mark(refusal: Refusal) -> u64
    ensures { result ≡ marked refusal }
{
    0x8000000000000000 + refusal.number() as u64
}

// A number as it is, and a refusal with its mark.
pub(crate) fn code(answer: Result<u64, Refusal>) -> u64
    ensures { result ≡ coded answer }
{
    match answer {
        Ok(n) => n,
        Err(refusal) => mark(refusal),
    }
}
