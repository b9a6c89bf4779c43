// Up to eight numbers of a packed sequence that follow each other, from the bits of their own groups alone.
#![tactic(auto)]

ghost use Rattle.std.specs.Prelude.{◌≡◌, ◌+◌, ◌*◌, ◌/◌, ◌%◌, ◌^◌, ◌≤◌, ◌<◌};
ghost use Rattle.bits.specs.Block.{block_number};
ghost use Rattle.encoding.specs.declared.Encoding.TheVariants.{Bits};
ghost use Rattle.quantization.specs.Ranges.{encoding_at, bits_at};
ghost use Rattle.integer_sequence.specs.Reading.{number, stored};
ghost use Rattle.integer_sequence.specs.inner.Sequences.{Narrow};
ghost use Rattle.sequence_numbers.specs.inner.Eight.{eight, Eight};

use bits::PhysicalBlock;
use encoding::{Encoding, Stored};
use integer_sequence::group::{FiveTrits, Group, ThreeQuints};

// Eight stored numbers in one, the first in bits 7..0.
#[derive(Clone, Copy)]
pub struct StoredEight(u64);

// The numbers from two places on.
#[derive(Clone, Copy)]
pub struct StoredRows {
    pub upper: StoredEight,
    pub lower: StoredEight,
}

// Number j of eight.
pub fn stored_in(x: StoredEight, j: u32) -> Stored
    requires { j < 8 }
    ensures { result ≡ stored (x.0 / 2 ^ (8 * j) % 256) }
{
    let n = x.0;
    Stored(((n >> (8 * j)) % 256) as u8)
}

// Numbers `first` to `first + n - 1` of the sequence s, all in one word of it.
fn bits_from(s: PhysicalBlock, b: u32, first: u32, n: u32) -> u64
    requires { (b ≤ 8) × (first < 256) × (n ≤ 8) }
    ensures { Eight n (λ j. number Bits b (block_number s) (first + j)) (eight result) }
{
    let word = bits::word_at(s, first * b);
    let mut out: u64 = 0;
    for k in (0..n).rev() {
        out = out * 256 + integer_sequence::reading::cut(word, k * b, b);
    }
    out
}

// The same group by group; the first begins before its turn where the run begins within a group.
fn groups_from<G: Group>(s: PhysicalBlock, b: u32, first: u32, n: u32) -> u64
    requires { Narrow G.form b × (first < 256) × (n ≤ 8) }
    ensures { Eight n (λ j. number G.form b (block_number s) (first + j)) (eight result) }
{
    let size = G::size();
    let step = G::bits(b);
    let mut p = first / size * step;
    let mut out = G::numbers(bits::word_at(s, p), b) >> (8 * (first % size));
    let own = size - first % size;
    for have in (own..n).step_by(size as usize) {
        p += step;
        out += G::numbers(bits::word_at(s, p), b) << (8 * have);
    }
    out
}

fn read_from(s: PhysicalBlock, e: Encoding, b: u8, first: u32, n: u32) -> u64
    requires { Narrow e b × (first < 256) × (n ≤ 8) }
    ensures { Eight n (λ j. number e b (block_number s) (first + j)) (eight result) }
{
    match e {
        Encoding::Bits => bits_from(s, b as u32, first, n),
        Encoding::Trits => groups_from::<FiveTrits>(s, b as u32, first, n),
        Encoding::Quints => groups_from::<ThreeQuints>(s, b as u32, first, n),
    }
}

// The first n numbers of the sequence s, by their range, from number `first` on.
pub fn numbers_from(s: PhysicalBlock, range: u8, first: u32, n: u32) -> StoredEight
    requires { (first < 256) × (n ≤ 8) }
    ensures { Eight n (λ j. number (encoding_at range) (bits_at range) (block_number s) (first + j)) result }
{
    let e = quantization::encoding_at(range);
    let b = quantization::bits_at(range);
    StoredEight(read_from(s, e, b, first, n))
}

// The first n from number `first` on, and from `down` numbers further on.
pub fn rows_from(s: PhysicalBlock, range: u8, first: u32, down: u32, n: u32) -> StoredRows
    requires { (first + down < 256) × (n ≤ 8) }
    ensures eight { Eight n (λ j. number (encoding_at range) (bits_at range) (block_number s) (first + j)) result.upper }
    ensures eight_2 { Eight n (λ j. number (encoding_at range) (bits_at range) (block_number s) (first + down + j)) result.lower }
{
    let e = quantization::encoding_at(range);
    let b = quantization::bits_at(range);
    let upper = StoredEight(read_from(s, e, b, first, n));
    let lower = StoredEight(read_from(s, e, b, first + down, n));
    StoredRows { upper, lower }
}
