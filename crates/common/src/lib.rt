// What several crates do with bytes and 32-bit numbers: whether a run of bytes lies within others, bytes put into an area that a
// caller lends, numbers in four bytes, and differences that stop at 0. Named as the Rust crate of such helpers.

#![tactic(auto)]

ghost use Rattle.std.specs.Prelude.{◌≡◌, ◌+◌, ◌-◌, ◌*◌, leb};
ghost use Rattle.format.specs.Basics.{put_at, next_at, le32};

// Whether `size` bytes from place `at` on lie within `len`.
pub fn within(at: usize, size: usize, len: usize) -> bool
    ensures { result ≡ leb (at + size) len }
{
    at.checked_add(size).is_some_and(|end| end <= len)
}

// Copies `bytes` into `area` from place `at` on: the place behind them. Where they don't fit, nothing is written. Byte by byte: for
// `copy_from_slice` the compiler calls `memmove`, which the static libraries would then need from outside.
pub fn put(bytes: &[u8], area: &mut [u8], at: usize) -> Option<usize>
    ensures next { result ≡ next_at at bytes.now area.old }
    ensures area { area.new ≡ put_at at bytes.now area.old }
{
    if !within(at, bytes.len(), area.len()) {
        return None;
    }
    for i in 0..bytes.len() {
        area[at + i] = bytes[i];
    }
    Some(at + bytes.len())
}

// This and the next two stay beside std's methods, since public names stay.

// The number whose bytes are a, b, c, d, lowest first. The compiler makes one load of it where they lie side by side. Who reads them of
// a slice does so in a private function of three lines, whose contract is `four_bytes` and which then needs no proof file: here it would
// want a test, or a `requires`, which no public function has.
pub fn u32_from_le_bytes(a: u8, b: u8, c: u8, d: u8) -> u32
    ensures { result ≡ a + 256 * b + 65536 * c + 16777216 * d }
{
    u32::from_le_bytes([a, b, c, d])
}

// The bytes of a number, lowest first.
#[tactic(auto, unfolding(format::specs::Basics::le32))]
pub fn u32_to_le_bytes(x: u32) -> [u8; 4]
    ensures { result ≡ le32 x }
{
    x.to_le_bytes()
}

// a - b, 0 where b is larger. The crates above call std's `saturating_sub`.
pub fn difference(a: u32, b: u64) -> u32
    ensures { result ≡ a - b }
{
    if b <= a as u64 { a - b as u32 } else { 0 }
}
