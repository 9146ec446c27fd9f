// First uses of `postings`, proved and run: ids 3, 7 and 300 with frequencies 1, 2 and 130 are written, document by document and at
// once, and read in each way there is. It prints what it finds; a refusal prints its number. What is lent are arrays of a fixed length,
// with room for any list of three documents: no heap is used.

#![tactic(auto)]

mod reading;
mod telling;
mod writing;

use crate::reading::{
    ask, call_all, list_all, mistype, mistype_arrays, walk, walk_arrays, walk_lent,
};
use crate::telling::tell;
use crate::writing::{write_each, write_on_arrays, write_whole};
use postings::Term;
use std::io;

// The first n bytes. That a part lies within its slice is a fact that must be proved: the smaller of the two lengths does.
fn front(output: &[u8], n: usize) -> &[u8] {
    &output[..n.min(output.len())]
}

// The image is at the front of the output.
fn read_each(rt: &impl Print, output: &[u8], n: usize) -> io::Result<()> {
    let image = front(output, n);
    let term = Term {
        mode: 1,
        requested: 1,
        count: 3,
    };
    walk(rt, image, term)?;
    walk_lent(rt, image, term)?;
    walk_arrays(rt, image, term)?;
    mistype(rt, image, term)?;
    mistype_arrays(rt, image, term)?;
    ask(rt, image)?;
    list_all(rt, image, term)?;
    call_all(rt, image, term)
}

fn main(rt: HostRuntime) -> io::Result<()> {
    // Room for any list of three documents: 10 bytes each.
    let mut output = [0u8; 30];
    write_each(&rt, &mut output)?;
    write_on_arrays(&rt, &mut output)?;
    let n = write_whole(&rt, &mut output)?;
    tell(&rt, "bytes", n as u64)?;
    read_each(&rt, &output, n)
}
