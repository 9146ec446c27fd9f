// A table as text: a line of names, `doc` and `freq` in either order, then a line of two numbers for each document.

ghost use Rattle.std.specs.Prelude.{◌≡◌, ◌+◌, ◌≤◌, length, drop};
ghost use Rattle.listing.specs.Input.{up_to, number, row, names, lines, rows, table, Reads};

// The order in which the line of names has the two columns.
#[derive(Clone, Copy)]
pub enum Order {
    DocFreq,
    FreqDoc,
}

// Where the line that begins at place `at` ends: at its line feed, or with the text.
fn line_end(text: &[u8], at: usize) -> usize
    requires { at ≤ length text.now }
    ensures { (result ≡ at + length (up_to 10 (drop at text.now))) × (result ≤ length text.now) }
{
    match text[at..].iter().position(|&b| b == b'\n') {
        Some(passed) => at + passed,
        None => text.len(),
    }
}

// Reads a number: decimal digits alone, below 2 ^ 32. Not by `parse`, which takes a sign in front.
fn read_number(text: &[u8]) -> Option<u32>
    ensures { result ≡ number text.now }
{
    if text.is_empty() {
        return None;
    }
    let mut value = 0u32;
    for &byte in text {
        if !byte.is_ascii_digit() {
            return None;
        }
        value = value.checked_mul(10)?.checked_add((byte - b'0') as u32)?;
    }
    Some(value)
}

// Reads a line of two numbers with one space between them.
fn read_row(line: &[u8]) -> Option<(u32, u32)>
    ensures { result ≡ row line.now }
{
    let space = line.iter().position(|&b| b == b' ')?;
    let first = read_number(&line[..space])?;
    let second = read_number(&line[space + 1..])?;
    Some((first, second))
}

// Reads the line of names. By `==`: tried as a `match` over the two names, and the check found no proof.
#[tactic(auto, unfolding(crate::specs::Input::names, format::specs::Basics::choose))]
fn read_names(line: &[u8]) -> Option<Order>
    ensures { result ≡ names line.now }
{
    if line == b"doc freq".as_slice() {
        return Some(Order::DocFreq);
    }
    if line == b"freq doc".as_slice() {
        return Some(Order::FreqDoc);
    }
    None
}

// Reads the rows from place `start` on into two columns: how many there are, `None` where a line is none. A row takes four bytes or
// more, so that there is room for all of them. The loop goes by places: over `split_inclusive`
// it was tried, and the proof didn't close. The columns are two arrays, since `write_list` takes two slices.
fn read_rows(
    text: &[u8],
    start: usize,
    firsts: &mut [u32; 16384],
    seconds: &mut [u32; 16384],
) -> Option<usize>
    requires { length text.now ≤ 65536 }
    ensures { Reads (rows (lines (drop start text.now))) firsts.new seconds.new result }
{
    let mut at = start;
    let mut n = 0;
    while at < text.len() {
        let end = line_end(text, at);
        let (first, second) = read_row(&text[at..end])?;
        firsts[n] = first;
        seconds[n] = second;
        n += 1;
        at = end + 1;
    }
    Some(n)
}

// Reads a table into its columns: how many rows there are, `None` where the text is no table.
pub(crate) fn read_table(
    text: &[u8],
    ids: &mut [u32; 16384],
    freqs: &mut [u32; 16384],
) -> Option<usize>
    requires { length text.now ≤ 65536 }
    ensures { Reads (table text.now) ids.new freqs.new result }
{
    let end = line_end(text, 0);
    let start = end + 1;
    match read_names(&text[..end])? {
        Order::DocFreq => read_rows(text, start, ids, freqs),
        Order::FreqDoc => read_rows(text, start, freqs, ids),
    }
}
