// Packed numbers read from a block: each has bits of its own, and those of a group may share a code of trits or quints. Crate
// sequence_writer writes them.
#![tactic(auto)]

pub mod group;
pub mod reading;
pub mod tables;

ghost use Rattle.std.specs.Prelude.{◌≡◌, min};
ghost use Rattle.bits.specs.Block.{block_number};
ghost use Rattle.quantization.specs.Ranges.{encoding_at, bits_at};
ghost use Rattle.integer_sequence.specs.Reading.{numbers, sequence_at};

use bits::PhysicalBlock;
use encoding::Stored;

fn at_most_64(n: u8) -> usize
    ensures { result ≡ min n 64 }
{
    if n < 64 { n as usize } else { 64 }
}

// The n numbers of a quantisation range that begin at bit from of a block, at most 64; the other places hold 0.
pub fn read_sequence(block: PhysicalBlock, from: u8, range: u8, n: u8) -> [Stored; 64]
    ensures { result ≡ numbers (encoding_at range) (bits_at range) (sequence_at (encoding_at range) (bits_at range) (block_number block) from n) n }
{
    let e = quantization::encoding_at(range);
    let b = quantization::bits_at(range);
    let w = encoding::sequence_bits(e, b, n as u32) as u32;
    let s = bits::part(block, from as u32, w);
    reading::read(s, e, b, at_most_64(n))
}
