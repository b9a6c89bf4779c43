// Packed numbers read from a block (crate integer_sequence), where they ended, and whether the digits that a cut group lacks are 0.
#![tactic(auto)]

ghost use Rattle.std.specs.Prelude.{◌≡◌, ◌≤◌, ◌<◌};
ghost use Rattle.bits.specs.Block.{block_number};
ghost use Rattle.integer_sequence.specs.inner.Sequences.{Narrow};
ghost use Rattle.sequence_end.specs.Ending.{missing_zero, sequence_of};

use bits::PhysicalBlock;
use encoding::{Encoding, Stored};
use integer_sequence::group::{FiveTrits, Group, OneNumber, ThreeQuints};

// The numbers, the position after the last bit, counted from the first, and whether the missing digits are zero.
#[derive(Clone, Copy)]
pub struct Sequence {
    pub numbers: [Stored; 64],
    pub end: u32,
    pub zero: bool,
}

// Of the sequence s of n numbers: whether the digits of the code of the group that it cuts are 0 from the first on that no number has.
fn zero_from_cut<G: Group>(s: PhysicalBlock, b: u32, n: u32) -> bool
    requires { Narrow G.form b × (n < 256) }
    ensures { result ≡ missing_zero G.form b (block_number s) n }
{
    let size = G::size();
    let k = n % size;
    if k == 0 {
        return true;
    }
    let word = bits::word_at(s, n / size * G::bits(b));
    G::digits(word, b) >> (8 * k) == 0
}

fn missing_zero(s: PhysicalBlock, e: Encoding, b: u8, n: u32) -> bool
    requires { Narrow e b × (n < 256) }
    ensures { result ≡ missing_zero e b (block_number s) n }
{
    match e {
        Encoding::Bits => zero_from_cut::<OneNumber>(s, b as u32, n),
        Encoding::Trits => zero_from_cut::<FiveTrits>(s, b as u32, n),
        Encoding::Quints => zero_from_cut::<ThreeQuints>(s, b as u32, n),
    }
}

// The n numbers of a quantisation range that begin at bit from of a block, at most 64, as `integer_sequence::read_sequence` reads them;
// where all n end; and whether the missing digits are 0.
pub fn read_sequence(block: PhysicalBlock, from: u8, range: u8, n: u8) -> Sequence
    ensures { result ≡ sequence_of range (block_number block) from n }
{
    let e = quantization::encoding_at(range);
    let b = quantization::bits_at(range);
    let end = encoding::sequence_bits(e, b, n as u32) as u32;
    let s = bits::part(block, from as u32, end);
    let zero = missing_zero(s, e, b, n as u32);
    let numbers = integer_sequence::read_sequence(block, from, range, n);
    Sequence { numbers, end, zero }
}
