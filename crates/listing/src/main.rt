// Lists a table of documents and frequencies: reads it from standard input, writes it as a posting list, steps through that list and
// prints each document with its frequency and the blocks unpacked so far. No contract can speak of what a program reads and writes, so
// `list_table` has the whole work on slices, and `main` hands it the bytes read and writes the bytes that it leaves.

#![tactic(auto)]

mod list;
mod table;
mod text;

use input::read_full;
use list::{area, list_table};
use std::io;

// A read that fails counts as the end of the input; a write that fails ends the program with its error.
fn main(rt: HostRuntime) -> io::Result<()> {
    // Room for the longest input that is taken, and one byte more, which shows that an input is longer.
    let mut input = [0u8; 65537];
    let size = read_full(&mut rt.stdin(), &mut input);
    // Room for the longest listing: the header and 16,385 lines of 63 bytes at most.
    let mut output = area::<u8, 1048576>(0);
    let end = list_table(&input[..size], &mut output);
    rt.write_all(&output[..end])
}
