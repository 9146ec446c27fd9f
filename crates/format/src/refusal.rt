// Why a call refuses, with the number that a caller in C is handed.

ghost use Rattle.std.specs.Prelude.{◌≡◌};
ghost use Rattle.format.specs.Refusal.{number_of};

use std::error::Error;
use std::fmt;

// The questions of document 01: a call refuses by the first of its questions that is answered no.
#[derive(Clone, Copy, Debug, PartialEq, Eq)]
pub enum Refusal {
    UnknownMode = 1,
    CountTooLarge,
    SkipLengthBroken,
    SkipLengthWrong,
    EntryBroken,
    DocsNotRising,
    FreqOutOfRange,
    NumberBroken,
    BytesLeft,
    TargetTooLarge,
    IdTooLarge,
    IdNotRising,
    FreqZero,
    CountMismatch,
    NoRoom,
    StateBroken,
}

impl Refusal {
    // The question's number in document 01.
    pub fn number(self) -> u8
        ensures { result ≡ number_of self }
    {
        self as u8
    }
}

impl fmt::Display for Refusal {
    ghost use Rattle.std.specs.Prelude.{Some};
    ghost use Rattle.format.specs.Refusal.{words_of};

    ghost output = { λ r. Some (words_of r) };

    fn fmt<W: fmt::Write>(&self, f: &mut fmt::Formatter<W>) -> fmt::Result {
        f.write_str(match self {
            Refusal::UnknownMode => "unknown mode",
            Refusal::CountTooLarge => "count above 2147483647",
            Refusal::SkipLengthBroken => "skip length incomplete, or above the bytes left",
            Refusal::SkipLengthWrong => "skip length other than the full blocks' entries take",
            Refusal::EntryBroken => "skip entry out of its limits",
            Refusal::DocsNotRising => "documents don't rise as they must",
            Refusal::FreqOutOfRange => "frequency out of range",
            Refusal::NumberBroken => "number incomplete or out of its limits",
            Refusal::BytesLeft => "bytes left behind the last block",
            Refusal::TargetTooLarge => "target above 2147483647",
            Refusal::IdTooLarge => "document above 2147483646",
            Refusal::IdNotRising => "document not above the one before it",
            Refusal::FreqZero => "frequency 0",
            Refusal::CountMismatch => "another count than announced, or slices of two lengths",
            Refusal::NoRoom => "no room in what was lent",
            Refusal::StateBroken => "numbers of a lent state out of bounds",
        })
    }
}

impl Error for Refusal {}
