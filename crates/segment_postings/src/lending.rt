// Calls on a cursor that the caller lends and gets back in its own record. The work is that of the calls by value. The last two are by
// value again and make theirs on a local cursor that they lend, for callers that hold no reference. Steps and seeks are calls of their own, as
// programs make them: two of each form in three lines, and no generic one.

ghost use Rattle.std.specs.Prelude.{◌≡◌};
ghost use Rattle.segment_postings.specs.Cursor.{advanced, sought};
ghost use Rattle.segment_postings.specs.Calls.{Leaves};

use crate::seeks::seek;
use crate::segment_postings::advance;
use crate::{Answer, Moved, SegmentPostings};
use format::{Refusal, Term};

// Steps to the next document; a refusal leaves the caller's record as it was.
pub fn advance_mut(
    cursor: &mut SegmentPostings,
    image: &[u8],
    term: Term,
) -> Result<Answer, Refusal>
    ensures { Leaves (advanced cursor.old image.now term) result cursor.new }
{
    let m = advance(*cursor, image, term);
    *cursor = m.cursor;
    m.answer
}

// Seeks to the first document, not before the present one, that is at least the target.
pub fn seek_mut(
    cursor: &mut SegmentPostings,
    image: &[u8],
    term: Term,
    target: u32,
) -> Result<Answer, Refusal>
    ensures { Leaves (sought cursor.old image.now term target) result cursor.new }
{
    let m = seek(*cursor, image, term, target);
    *cursor = m.cursor;
    m.answer
}

// A step by value: a local cursor is lent and handed back.
pub fn advance_by_lending(was: SegmentPostings, image: &[u8], term: Term) -> Moved
    ensures { result ≡ advanced was image.now term }
{
    let mut mine = was;
    let answer = advance_mut(&mut mine, image, term);
    Moved {
        answer,
        cursor: mine,
    }
}

// A seek by value, likewise.
pub fn seek_by_lending(was: SegmentPostings, image: &[u8], term: Term, target: u32) -> Moved
    ensures { result ≡ sought was image.now term target }
{
    let mut mine = was;
    let answer = seek_mut(&mut mine, image, term, target);
    Moved {
        answer,
        cursor: mine,
    }
}
