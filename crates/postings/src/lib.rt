// Posting lists: what a customer links. The calls that write, read, count and admit a list stand here under one name each, with
// `run_calls` beside them; those on a short number, a packed block or a skip entry alone are the leaf crates' (`vint`, `bitpacking`, `skip`
// and others). `proofs/` holds the three promises of the order as theorems over the calls that stand here.
//
// Every call is a plain function. Numbers and records (the writer's state, the cursor, a `Term`) go by value, and what a call makes of them
// comes back beside its answer; bytes are lent as slices and a block's values as arrays; `advance_mut` and `seek_mut` are lent the
// caller's record. None demands anything of its caller, each returns on every input, and the `ensures` beside it says the outcome on
// all inputs: the answer, and every byte of what is lent. What may be refused answers a `Result`, and `?` hands a refusal on: a `Refusal`
// is the first question of document 01 that is answered no, with its number there by `number()`. It leaves everything lent as it was.
//
// WRITING. One term's list of documents and frequencies becomes an image. A state goes from call to call; a full block and its entry
// go into two lent areas, and closing puts the image into the output and answers its length.
//
//     let begun = new_term(1, true);                                   // mode 1, frequencies recorded
//     let step = write_doc(begun.state, 3, 1, &mut skips, &mut postings);
//     let step = write_doc(step.state, 7, 2, &mut skips, &mut postings);
//     let closed = close_term(step.state, 2, &skips, &postings, &mut output);
//     let bytes = closed.answer?;
//
// The other calls say whether they took what they were handed, and a document that is refused isn't taken:
//
//     match step.answer { Ok(()) => .., Err(refusal) => .. }
//
// Loops over many documents copy no state where they hold its arrays themselves, and its numbers beside them:
//
//     let mut docs = [0u32; 128];
//     let mut freqs = [0u32; 128];
//     let progress = new_term_in(1, true)?;
//     let progress = write_doc_in(progress, 3, 1, &mut docs, &mut freqs, &mut skips, &mut postings)?;
//     let closed = close_term_in(progress, 1, &docs, &freqs, &skips, &postings, &mut output);
//     let bytes = closed.answer?;
//
// Or the whole list at once, which refuses before it writes a byte; `ask_list` asks the same under an announced count and writes none:
//
//     let bytes = write_list(1, true, &ids, &freqs, &mut skips, &mut postings, &mut output)?;
//     ask_list(1, true, &ids, &freqs, 3, &skips, &postings, &output)?;
//
// For n documents 8 * (n / 128) bytes of `skips`, 1008 * (n / 128) of `postings` and 10 * n of `output` are always enough; without
// recorded frequencies 5 * (n / 128), 496 * (n / 128) and 5 * n. Where the list needs more than is lent, that is `Refusal::NoRoom` (15).
//
// READING. The image, with its recorded mode, its count and the requested mode in a `Term`, is lent to each call. The cursor goes by
// value and comes back beside the answer:
//
//     let term = Term { mode: 1, requested: 1, count: 3 };
//     let opened = open(image, term);                                  // at the first document
//     let moved = advance(opened.cursor, image, term);                 // the next
//     let moved = seek(moved.cursor, image, term, 300);                // the first at or above 300, not before the present one
//     let answer = moved.answer?;                                      // `doc`, `freq`, and so far `unpacked` blocks and `entries` read
//     let is_there = answer.hit;                                       // whether 300 itself is there; else it is a later document, or the end
//     let d = doc(moved.cursor, image, term)?;                         // 2147483647 at the end
//     let f = term_freq(moved.cursor, image, term)?;                   // 0 at the end
//
// or is lent, and changed in the caller's own record:
//
//     let mut cursor = opened.cursor;
//     let answer = advance_mut(&mut cursor, image, term)?;             // an `Answer` too
//     let answer = seek_mut(&mut cursor, image, term, 300)?;
//
// or is taken and handed back by value, with the call made on a lent one in between:
//
//     let moved = advance_by_lending(moved.cursor, image, term);
//     let moved = seek_by_lending(moved.cursor, image, term, 300);
//
// Loops over many calls copy no cursor where they hold its arrays themselves, and its numbers beside them:
//
//     let mut docs = [TERMINATED; 128];
//     let mut freqs = [1u32; 128];
//     let held = open_in(image, term, &mut docs, &mut freqs)?;
//     let held = advance_in(held, image, term, &mut docs, &mut freqs)?;
//     let sought = seek_in(held, image, term, 300, &mut docs, &mut freqs)?;
//
// They answer where they came to, a seek with its hit, and `answer_at` what stands there, at the end 2147483647 and 0 as the other calls do:
//
//     let answer = answer_at(sought.held, term, &docs, &freqs)?;
//     let is_there = sought.hit;
//
// In each of these manners a seek is a hit where the document it answers is the target itself; a backward one, where the present document
// is. At the end none is, with 2147483647 neither, and opening and a step have no target.
//
// In each of these manners a seek to a target above 2147483647 is refused, at the end too, and leaves the cursor where it was:
//
//     let moved = seek(moved.cursor, image, term, 2147483648);         // moved.answer: Err(Refusal::TargetTooLarge), 10
//
// COUNTS. From a fresh cursor; a target above 2147483647 is `Refusal::TargetTooLarge` (10). They ask their questions of what they read
// alone, and so answer of images too that aren't sound: `rank` unpacks the first block and the one that it lands on, `total` the blocks up
// to the target.
//
//     let below = rank(image, 1, 3, 300)?;                             // documents below 300
//     let sum = total(image, 1, 3, 300)?;                              // the sum of their frequencies
//
// A WHOLE LIST, into two slices of at least `term.count` places; the image is validated before a place is written:
//
//     let n = read(image, term, &mut all_docs, &mut all_freqs)?;
//
// ADMISSION. An image that somebody else wrote is sound or not; its parts, as its skip length splits it, are parts of the caller's slice:
//
//     validate(image, 1, 3)?;                                          // `Ok(())` where it is sound
//     let skips = skip_bytes(image, 3);                                // empty where the skip length is refused, or there is no full block
//     let blocks = posting_bytes(image, 3);                            // the rest; empty where the skip length is refused
//
// A LIST OF CALLS in one, coded as numbers (calls.rt): for comparisons with another engine and for measuring.
//
//     let n = run_calls(image, term, &[4294967296 + 300, 0], &mut answers);      // opens, seeks 300, steps: 3 answers of `ANSWER_NUMBERS` numbers

#![tactic(auto)]

mod calls;

pub use crate::calls::{
    ANSWER_NUMBERS, DOC_PLACE, ENTRIES_PLACE, FREQ_PLACE, HIT_PLACE, REFUSAL_PLACE, UNPACKED_PLACE,
    run_calls,
};
pub use format::{Refusal, TERMINATED, Term};
pub use segment_postings::layout::{posting_bytes, skip_bytes};
pub use segment_postings::validate::validate;
pub use segment_postings::{
    Answer, Held, Moved, SegmentPostings, Sought, advance, advance_by_lending, advance_in,
    advance_mut, answer_at, doc, open, open_in, rank, read, seek, seek_by_lending, seek_in,
    seek_mut, term_freq, total,
};
pub use serializer::{
    ClosedIn, ClosedTerm, PostingsSerializer, Progress, Step, ask_list, close_term, close_term_in,
    new_term, new_term_in, write_doc, write_doc_in, write_list,
};
