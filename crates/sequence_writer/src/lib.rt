// Writing packed numbers into a block.
#![tactic(auto)]

ghost use Rattle.std.specs.Prelude.{◌≡◌, ◌≤◌, min, take};
ghost use Rattle.bits.specs.Block.{block_number};
ghost use Rattle.encoding.specs.declared.Encoding.TheVariants.{Bits, Trits, Quints};
ghost use Rattle.quantization.specs.Ranges.{encoding_at, bits_at};
ghost use Rattle.integer_sequence.specs.Writing.{values};
ghost use Rattle.integer_sequence.specs.inner.Sequences.{with_sequence};

use bits::PhysicalBlock;
use encoding::{Encoding, Stored};

fn smaller(a: usize, b: usize) -> usize
    ensures { result ≡ min a b }
{
    if a < b { a } else { b }
}

// A block's bits below bit from, and from there on the first n numbers: group by group, the last may be cut.
fn write_trits(block: PhysicalBlock, from: u32, b: u32, xs: [Stored; 64], n: usize) -> PhysicalBlock
    requires { (n ≤ 64) × (from ≤ 255) × (b ≤ 8) }
    ensures { block_number result ≡ with_sequence Trits b (block_number block) from (take n (values xs)) }
{
    let table = smallest_codes::whole::five_trits();
    let mut out = bits::append(block, from, 0);
    let mut at = from;
    for i in (0..n).step_by(5) {
        let group = if i + 5 <= n {
            sequence_words::five_trits(&table, xs, i, b)
        } else {
            sequence_words::last_trits(xs, i, n, b)
        };
        out = bits::append(out, at, group);
        at += 5 * b + 8;
    }
    out
}

// Beside write_trits: the tables that are lent have 243 and 125 entries, and a trait over both with its impls is longer than this loop.
fn write_quints(
    block: PhysicalBlock,
    from: u32,
    b: u32,
    xs: [Stored; 64],
    n: usize,
) -> PhysicalBlock
    requires { (n ≤ 64) × (from ≤ 255) × (b ≤ 8) }
    ensures { block_number result ≡ with_sequence Quints b (block_number block) from (take n (values xs)) }
{
    let table = smallest_codes::whole::three_quints();
    let mut out = bits::append(block, from, 0);
    let mut at = from;
    for i in (0..n).step_by(3) {
        let group = if i + 3 <= n {
            sequence_words::three_quints(&table, xs, i, b)
        } else {
            sequence_words::last_quints(xs, i, n, b)
        };
        out = bits::append(out, at, group);
        at += 3 * b + 7;
    }
    out
}

// The same, eight numbers at once.
fn write_bits(block: PhysicalBlock, from: u32, b: u32, xs: [Stored; 64], n: usize) -> PhysicalBlock
    requires { (n ≤ 64) × (from ≤ 255) × (b ≤ 8) }
    ensures { block_number result ≡ with_sequence Bits b (block_number block) from (take n (values xs)) }
{
    let mut out = bits::append(block, from, 0);
    let mut at = from;
    for i in (0..n).step_by(8) {
        let m = smaller(8, n - i);
        out = bits::append(out, at, sequence_words::bits_word(xs, i, m, b));
        at += m as u32 * b;
    }
    out
}

fn write(
    block: PhysicalBlock,
    from: u32,
    e: Encoding,
    b: u32,
    xs: [Stored; 64],
    n: usize,
) -> PhysicalBlock
    requires { (n ≤ 64) × (from ≤ 255) × (b ≤ 8) }
    ensures { block_number result ≡ with_sequence e b (block_number block) from (take n (values xs)) }
{
    match e {
        Encoding::Bits => write_bits(block, from, b, xs, n),
        Encoding::Trits => write_trits(block, from, b, xs, n),
        Encoding::Quints => write_quints(block, from, b, xs, n),
    }
}

// A block's bits below bit from, and from there on the first n numbers, at most 64; spare bits above are 0.
pub fn write_sequence(
    block: PhysicalBlock,
    from: u8,
    range: u8,
    xs: [Stored; 64],
    n: u8,
) -> PhysicalBlock
    ensures { block_number result ≡ with_sequence (encoding_at range) (bits_at range) (block_number block) from (take n (values xs)) }
{
    let e = quantization::encoding_at(range);
    let b = quantization::bits_at(range);
    write(block, from as u32, e, b as u32, xs, smaller(n as usize, 64))
}
