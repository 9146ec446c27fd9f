// The values of a block and their packed size: the port of compression/mod.rs, less the packer (crate bitpacking) and the tail's
// numbers (crate vint). A block's values are arrays of a fixed length, lent by the caller, since no heap is used.

#![tactic(auto)]

pub mod values;

ghost use Rattle.std.specs.Prelude.{◌≡◌, ◌*◌};

// The bytes of 128 values packed at `num_bits` bits each, or of a block whose two widths make `num_bits`: 16 for each bit.
pub fn compressed_block_size(num_bits: u8) -> usize
    ensures { result ≡ 16 * num_bits }
{
    16 * num_bits as usize
}
